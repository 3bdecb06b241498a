//! Sources with their lines and columns, and what lexers and parsers share.
#![tactic(auto)]

ghost use Rattle.std.specs.Prelude.{◌≡◌, ℕ, List, ◌+◌, ◌<◌, ◌≤◌, ◌^◌, ◌∷◌, length, take, drop, string_bytes, vec_len, IfOk, IfErr, IfSome, IfNone, IsTrue, ◌↔◌, slice_get, Some};
ghost use Rattle.std.specs.Str.{IsUtf8, IsValidUpTo};
ghost use Rattle.pd_sections.specs.Positions.{ends_line, starts_with_newline, line_at, column_at};
ghost use Rattle.pd_sections.specs.Starts.{starts_behind, IsKept, IsLine};
ghost use Rattle.pd_sections.specs.Refusing.{IsNotUtf8};
ghost use Rattle.pd_sections.specs.Lexing.{Language, IsLongest, StartsNoPiece, Lexes, Offends, Splits, StopsAt, FaultWithin};

use std::alloc::{AllocError, AllocFailed, Global};
use std::marker::Model;

/// The most bytes that a source has: 2^20.
pub const MOST_BYTES: usize = 1_048_576;

/// A stretch of a source: `len` bytes from byte `start` on. `source` is the source's number in its plan.
#[derive(Clone, Copy, PartialEq, Eq, Debug)]
pub struct Section {
    pub source: u32,
    pub start: u32,
    pub len: u32,
}

/// What a token is; docs/LANGUAGES.md has the tokens of each language.
#[derive(Clone, Copy, PartialEq, Eq, Debug)]
pub enum TokenKind {
    /// A name that is no keyword.
    Name,
    /// Digits.
    Number,
    /// A text of SL, with its two `"`.
    Text,
    /// A name that the language keeps for itself.
    Keyword,
    /// An operator, a bracket or another mark, of one or two bytes.
    Symbol,
}

/// A token: `len` bytes of its source from byte `start` on.
#[derive(Clone, Copy, PartialEq, Eq, Debug)]
pub struct Token {
    pub kind: TokenKind,
    pub start: u32,
    pub len: u32,
}

/// Why a source is refused. docs/LANGUAGES.md has the rules, and says which is told where several are broken.
#[derive(Clone, Copy, PartialEq, Eq, Debug)]
pub enum Rule {
    /// A character that begins no token, or in SL a `\` in a text.
    BadByte,
    /// A `"` of SL whose text isn't closed on its line.
    OpenText,
    /// A `/*` of SL whose comment isn't closed.
    OpenComment,
    /// A token up to which no program is spelled, or an end that comes too early.
    Unexpected,
    /// A number above 9223372036854775807.
    LiteralTooLarge,
    /// A name of PL/0 in a factor or at the start of a statement that no visible declaration has.
    Undeclared,
    /// A constant or procedure of PL/0 at the start of a statement.
    NotAssignable,
    /// A `call` of a constant or variable of PL/0.
    NotAProcedure,
    /// A procedure of PL/0 in a factor.
    NotAValue,
    /// A name that its block of PL/0 has declared already.
    Doubled,
    /// The token makes the nesting deeper than 200.
    TooDeep,
    /// The sources of the plan up to this one have more than 65,536 nodes.
    TooManyNodes,
}

/// A refused source: the rule that is broken, and the byte where.
#[derive(Clone, Copy, PartialEq, Eq, Debug)]
pub struct Refusal {
    pub rule: Rule,
    pub at: u32,
}

/// What some bytes of a text are.
#[derive(Clone, Copy, PartialEq, Eq, Debug)]
pub enum Piece {
    /// White space, or a comment.
    Blank,
    /// A token.
    Word(TokenKind),
    /// They offend against the rule, `behind` bytes after their first.
    Fault { rule: Rule, behind: u32 },
}

/// The bytes of a source aren't UTF-8; `at` is the length of the longest prefix that is UTF-8.
#[derive(Clone, Copy, PartialEq, Eq, Debug)]
pub struct NotUtf8 {
    pub at: u32,
}

/// Why a call gave up: it refuses what it was given, or memory ran out.
#[derive(Drop, PartialEq, Eq, Debug)]
pub enum Stop<R: Drop> {
    /// What was given is refused, for this cause.
    Refused(R),
    /// Memory ran out.
    Memory,
}

impl<R: Drop> From<AllocError> for Stop<R> {
    ghost use Rattle.std.specs.Prelude.{◌≡◌};
    ghost use Rattle.pd_sections.specs.declared.Stop.TheVariants.{Memory};

    ghost from_gives = { λ _ stop. stop ≡ Memory };

    fn from(_error: AllocError) -> Stop<R> {
        Stop::Memory
    }
}

impl<R: Drop, T: Drop> From<AllocFailed<T>> for Stop<R> {
    ghost use Rattle.std.specs.Prelude.{◌≡◌};
    ghost use Rattle.pd_sections.specs.declared.Stop.TheVariants.{Memory};

    ghost from_gives = { λ _ stop. stop ≡ Memory };

    fn from(_error: AllocFailed<T>) -> Stop<R> {
        Stop::Memory
    }
}

/// The tokens of a source, in the order of its text; contracts see the list of them.
#[derive(Drop)]
pub struct Tokens {
    items: Vec<Token>,
}

impl Model for Tokens {
    ghost use Rattle.std.specs.Prelude.{List, ◌<◌, ◌^◌, length};
    ghost use Rattle.pd_sections.specs.declared.Token.{Token};

    ghost Value = { List Token };

    ghost view = { λ tokens. tokens.items.items };

    ghost invariant = { λ tokens. length tokens.items.items < 2 ^ 32 };
}

impl Tokens {
    /// These tokens, of which there are less than 2 to the 32.
    pub fn of(items: Vec<Token>) -> Tokens
        requires { vec_len items < 2 ^ 32 }
        ensures { result ≡ items.items }
    {
        Tokens { items }
    }

    /// How many tokens there are.
    pub fn len(&self) -> u32
        ensures { result ≡ length self.now }
    {
        self.items.len() as u32
    }

    /// Whether there is no token.
    pub fn is_empty(&self) -> bool
        ensures { IsTrue result ↔ (length self.now ≡ 0) }
    {
        self.items.is_empty()
    }

    /// The token with this number, counted from 0.
    pub fn get(&self, i: u32) -> Token
        requires { i < length self.now }
        ensures { slice_get self.now i ≡ Some result }
    {
        self.items[i as usize]
    }
}

/// A source: its name, and its bytes, which are UTF-8.
#[derive(Drop)]
pub struct Source {
    name: String,
    bytes: Vec<u8>,
    starts: Vec<u32>,
}

impl Model for Source {
    ghost use Rattle.std.specs.Prelude.{string_bytes};
    ghost use Rattle.pd_sections.specs.Written.{Written};
    ghost use Rattle.pd_sections.specs.Starts.{IsKept};

    ghost Value = { Written };

    ghost view = { λ source. record { name = string_bytes source.name; bytes = source.bytes.items } };

    ghost invariant = { λ source. IsKept source.bytes.items source.starts.items };
}

impl Source {
    /// The source of this name with these bytes, at most `MOST_BYTES` of them. It is refused exactly where they aren't UTF-8.
    /// Memory may run out: then `Stop::Memory`.
    pub fn new(alloc: Global, name: String, bytes: Vec<u8>) -> Result<Source, Stop<NotUtf8>>
        requires { vec_len bytes ≤ MOST_BYTES }
        ensures kept { IfOk result (λ source. source ≡ record { name = string_bytes name; bytes = bytes.items }) }
        ensures text { IfOk result (λ _. IsUtf8 bytes.items) }
        ensures refused { IfErr result (IsNotUtf8 bytes.items) }
    {
        if let Err(error) = std::str::from_utf8(bytes.as_slice()) {
            let at = error.valid_up_to() as u32;
            return Err(Stop::Refused(NotUtf8 { at }));
        }
        let starts = line_starts(alloc, bytes.as_slice())?;
        Ok(Source {
            name,
            bytes,
            starts,
        })
    }

    /// The source's name.
    pub fn name(&self) -> &str
        ensures { result.now ≡ self.now.name }
    {
        self.name.as_str()
    }

    /// The source's bytes.
    pub fn bytes(&self) -> &[u8]
        ensures value { result.now ≡ self.now.bytes }
        ensures text { IsUtf8 self.now.bytes }
        ensures small { length self.now.bytes ≤ MOST_BYTES }
    {
        self.bytes.as_slice()
    }

    /// The line of the place after the first `at` bytes, from 1 on.
    pub fn line_of(&self, at: u32) -> u32
        requires { at ≤ length self.now.bytes }
        ensures { result ≡ line_at self.now.bytes at }
    {
        self.position_of(at).0
    }

    /// The column of the place after the first `at` bytes, from 1 on; it counts bytes.
    pub fn column_of(&self, at: u32) -> u32
        requires { at ≤ length self.now.bytes }
        ensures { result ≡ column_at self.now.bytes at }
    {
        self.position_of(at).1
    }

    /// The line and the column of the place after the first `at` bytes.
    fn position_of(&self, at: u32) -> (u32, u32)
        requires { at ≤ length self.now.bytes }
        ensures line { result.0 ≡ line_at self.now.bytes at }
        ensures column { result.1 ≡ column_at self.now.bytes at }
    {
        let line = lines_begun(&self.starts, at);
        (line as u32, at - self.starts[line - 1] + 1)
    }

    /// The bytes of a section that lies in this source.
    pub fn text_of(&self, section: Section) -> &[u8]
        requires { section.start + section.len ≤ length self.now.bytes }
        ensures { result.now ≡ take section.len (drop section.start self.now.bytes) }
    {
        let start = section.start as usize;
        &self.bytes[start..start + section.len as usize]
    }
}

/// A language as a lexer knows it: what its pieces are, and the longest one that a text begins with.
pub trait Lexicon {
    // What some bytes are, taken as a whole, if they are one piece.
    ghost piece_of: { Language };

    /// The longest piece that the bytes begin with, and its length, if they begin with one.
    fn longest(bytes: &[u8]) -> Option<(Piece, u32)>
        requires { length bytes.now ≤ MOST_BYTES }
        ensures some { IfSome result (λ found. IsLongest piece_of bytes.now found.0 found.1) }
        ensures fault { IfSome result (λ found. FaultWithin found.0 found.1) }
        ensures none { IfNone result (StartsNoPiece piece_of bytes.now) };
}

/// The tokens of a source, or its first offending place.
pub fn split<L: Lexicon>(alloc: Global, source: &Source) -> Result<Tokens, Stop<Refusal>>
    ensures tokens { IfOk result (Splits L.piece_of source.now.bytes) }
    ensures refused { IfErr result (StopsAt L.piece_of source.now.bytes) }
{
    let bytes = source.bytes();
    let mut tokens = Vec::new(alloc);
    let mut at = 0;
    while at < bytes.len() {
        let place = at as u32;
        let (_, rest) = bytes.split_at(at);
        let Some((piece, len)) = L::longest(rest) else {
            return Err(Stop::Refused(Refusal {
                rule: Rule::BadByte,
                at: place,
            }));
        };
        match piece {
            Piece::Blank => {}
            Piece::Word(kind) => tokens.push(Token {
                kind,
                start: place,
                len,
            })?,
            Piece::Fault { rule, behind } => {
                return Err(Stop::Refused(Refusal {
                    rule,
                    at: place + behind,
                }));
            }
        }
        at += len as usize;
    }
    Ok(Tokens::of(tokens))
}

/// In each language a text splits into tokens in one way at most, has one first offending place at most, and never both.
pub fn splitting_law()
    ensures tokens { (f : Language) (at : ℕ) (bytes : List ℕ) (xs ys : List Token) → Lexes f at bytes xs → Lexes f at bytes ys → xs ≡ ys }
    ensures refusal { (f : Language) (at : ℕ) (bytes : List ℕ) (x y : Refusal) → Offends f at bytes x → Offends f at bytes y → x ≡ y }
    ensures never_both { (f : Language) (at : ℕ) (bytes : List ℕ) (xs : List Token) (x : Refusal) → Lexes f at bytes xs → Offends f at bytes x → ⊥ }
{}

/// Whether a line end ends with this byte, where these bytes come next.
fn ends_line(byte: u8, next: &[u8]) -> bool
    ensures { result ≡ ends_line byte next.now }
{
    match byte {
        b'\n' => true,
        b'\r' => next.first() != Some(&b'\n'),
        _ => false,
    }
}

/// The places where the lines of these bytes start, rising.
fn line_starts(alloc: Global, bytes: &[u8]) -> Result<Vec<u32>, AllocError>
    requires { length bytes.now ≤ MOST_BYTES }
    ensures { IfOk result (λ starts. starts.items ≡ 0 ∷ starts_behind 0 bytes.now) }
{
    let mut starts = Vec::new(alloc);
    starts.push(0)?;
    for (place, byte) in bytes.iter().enumerate() {
        if ends_line(*byte, &bytes[place + 1..]) {
            starts.push(place as u32 + 1)?;
        }
    }
    Ok(starts)
}

/// How many of the rising line starts are at most `at`.
fn lines_begun(starts: &[u32], at: u32) -> usize
    ensures { (bytes : List ℕ) → starts.now ≡ 0 ∷ starts_behind 0 bytes → IsLine bytes starts.now at result }
{
    starts.partition_point(|start| *start <= at)
}
