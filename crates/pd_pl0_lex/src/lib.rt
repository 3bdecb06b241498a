//! The tokens of PL/0.
#![tactic(auto)]

ghost use Rattle.std.specs.Prelude.{◌≡◌, ◌+◌, ◌<◌, ◌≤◌, ◌∷◌, length, take, IfOk, IfErr};
ghost use Rattle.std.specs.List.{prefix_len, list_any};
ghost use Rattle.std.specs.Str.{bytes_eq};
ghost use Rattle.pd_sections.specs.Lexing.{Splits, StopsAt};
ghost use Rattle.pd_sections.specs.Pieces.{is_digit, word};
ghost use Rattle.pd_sections.specs.Pl0Pieces.{is_white, is_name_start, is_name_part, keywords, is_symbol, is_pair, pl0_piece};
ghost use Rattle.pd_pl0_lex.specs.Scanning.{found_number, found_symbol};
ghost use Rattle.pd_pl0_lex.specs.Scan.{found_from, found_in};

use pd_sections::{Lexicon, MOST_BYTES, Piece, Refusal, Source, Stop, TokenKind, Tokens};
use std::alloc::Global;

/// The tokens of a PL/0 source, or its first offending place: a byte that starts no token. docs/LANGUAGES.md has the
/// tokens.
pub fn lex(alloc: Global, source: &Source) -> Result<Tokens, Stop<Refusal>>
    ensures tokens { IfOk result (Splits pl0_piece source.now.bytes) }
    ensures refused { IfErr result (StopsAt pl0_piece source.now.bytes) }
{
    pd_sections::split::<Pl0>(alloc, source)
}

/// PL/0's pieces.
enum Pl0 {}

impl Lexicon for Pl0 {
    ghost piece_of = { pl0_piece };

    fn longest(bytes: &[u8]) -> Option<(Piece, u32)> {
        found_in(bytes)
    }
}

fn found_in(bytes: &[u8]) -> Option<(Piece, u32)>
    requires { length bytes.now ≤ MOST_BYTES }
    ensures { result ≡ found_in bytes.now }
{
    match bytes {
        [] => None,
        [first, rest @ ..] => found_from(*first, rest, bytes),
    }
}

/// The longest piece that begins with `first` and goes on in `rest`; `bytes` are both.
fn found_from(first: u8, rest: &[u8], bytes: &[u8]) -> Option<(Piece, u32)>
    requires whole { bytes.now ≡ first ∷ rest.now }
    requires small { length bytes.now ≤ MOST_BYTES }
    ensures { result ≡ found_from first rest.now }
{
    if is_white(first) {
        Some((Piece::Blank, 1))
    } else if is_name_start(first) {
        Some(found_name(rest, bytes))
    } else if is_digit(first) {
        Some(found_number(rest))
    } else {
        found_symbol(first, rest)
    }
}

fn found_name(rest: &[u8], bytes: &[u8]) -> (Piece, u32)
    requires whole { length bytes.now ≡ 1 + length rest.now }
    requires small { length bytes.now ≤ MOST_BYTES }
    ensures { let len = 1 + prefix_len is_name_part rest.now in result ≡ (word keywords (take len bytes.now), len) }
{
    let len = 1 + name_len(rest);
    let kind = if is_keyword(&bytes[..len]) {
        TokenKind::Keyword
    } else {
        TokenKind::Name
    };
    (Piece::Word(kind), len as u32)
}

fn found_number(rest: &[u8]) -> (Piece, u32)
    requires { length rest.now < MOST_BYTES }
    ensures { result ≡ found_number rest.now }
{
    (Piece::Word(TokenKind::Number), 1 + digits_len(rest) as u32)
}

/// How many of the bytes, from the first on, are a name's.
fn name_len(bytes: &[u8]) -> usize
    ensures len { result ≡ prefix_len is_name_part bytes.now }
    ensures within { result ≤ length bytes.now }
{
    bytes.iter().take_while(|byte| is_name_part(**byte)).count()
}

fn digits_len(bytes: &[u8]) -> usize
    ensures len { result ≡ prefix_len is_digit bytes.now }
    ensures within { result ≤ length bytes.now }
{
    bytes.iter().take_while(|byte| is_digit(**byte)).count()
}

fn found_symbol(first: u8, rest: &[u8]) -> Option<(Piece, u32)>
    ensures { result ≡ found_symbol is_symbol is_pair first rest.now }
{
    match rest {
        [next, ..] if is_pair(first, *next) => Some((Piece::Word(TokenKind::Symbol), 2)),
        _ if is_symbol(first) => Some((Piece::Word(TokenKind::Symbol), 1)),
        _ => None,
    }
}

fn is_white(byte: u8) -> bool
    ensures { result ≡ is_white byte }
{
    matches!(byte, b' ' | b'\t' | b'\r' | b'\n')
}

fn is_name_start(byte: u8) -> bool
    ensures { result ≡ is_name_start byte }
{
    matches!(byte, b'A'..=b'Z' | b'a'..=b'z' | b'_')
}

fn is_name_part(byte: u8) -> bool
    ensures { result ≡ is_name_part byte }
{
    matches!(byte, b'A'..=b'Z' | b'a'..=b'z' | b'_' | b'0'..=b'9')
}

fn is_digit(byte: u8) -> bool
    ensures { result ≡ is_digit byte }
{
    byte.is_ascii_digit()
}

fn is_symbol(byte: u8) -> bool
    ensures { result ≡ is_symbol byte }
{
    matches!(
        byte,
        b'.' | b','
            | b';'
            | b'='
            | b'#'
            | b'<'
            | b'>'
            | b'+'
            | b'-'
            | b'*'
            | b'/'
            | b'('
            | b')'
            | b'!'
    )
}

fn is_pair(byte: u8, next: u8) -> bool
    ensures { result ≡ is_pair byte next }
{
    matches!(byte, b':' | b'<' | b'>') && next == b'='
}

fn is_keyword(word: &[u8]) -> bool
    ensures { result ≡ list_any (λ keyword. bytes_eq word.now keyword) keywords }
{
    word == b"const".as_slice()
        || word == b"var".as_slice()
        || word == b"procedure".as_slice()
        || word == b"call".as_slice()
        || word == b"begin".as_slice()
        || word == b"end".as_slice()
        || word == b"if".as_slice()
        || word == b"then".as_slice()
        || word == b"while".as_slice()
        || word == b"do".as_slice()
        || word == b"odd".as_slice()
}
