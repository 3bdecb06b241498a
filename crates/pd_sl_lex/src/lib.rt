//! The tokens of SL.
#![tactic(auto)]

ghost use Rattle.std.specs.Prelude.{◌≡◌, ◌==◌, ◌&&◌, not, ◌+◌, ◌<◌, ◌≤◌, ◌∷◌, Option, Some, length, take, IfOk, IfErr, IfSome, IfNone};
ghost use Rattle.std.specs.List.{prefix_len, list_any};
ghost use Rattle.pd_sections.specs.Pieces.{is_digit, is_line_end, word};
ghost use Rattle.std.specs.Str.{bytes_eq};
ghost use Rattle.pd_sections.specs.Lexing.{Splits, StopsAt, IsLongest, StartsNoPiece, FaultWithin};
ghost use Rattle.pd_sections.specs.SlPieces.{is_white, is_name_start, is_name_part, keywords, is_symbol, is_pair, closed_text, starts_with_slash, sl_piece};
ghost use Rattle.pd_sl_lex.specs.Scan.{text_end, comment_end, found_name, found_number, found_text, found_slash, found_symbol, found_from, found_in};

use pd_sections::{Lexicon, MOST_BYTES, Piece, Refusal, Rule, Source, Stop, TokenKind, Tokens};
use std::alloc::Global;

/// The tokens of an SL source, or its first offending place: a byte that starts no token, a `\` in a text, or the start
/// of a text or a comment that isn't closed. docs/LANGUAGES.md has the tokens.
pub fn lex(alloc: Global, source: &Source) -> Result<Tokens, Stop<Refusal>>
    ensures tokens { IfOk result (Splits sl_piece source.now.bytes) }
    ensures refused { IfErr result (StopsAt sl_piece source.now.bytes) }
{
    pd_sections::split::<Sl>(alloc, source)
}

/// SL's pieces.
enum Sl {}

impl Lexicon for Sl {
    ghost piece_of = { sl_piece };

    fn longest(bytes: &[u8]) -> Option<(Piece, u32)> {
        found_in(bytes)
    }
}

fn found_in(bytes: &[u8]) -> Option<(Piece, u32)>
    requires { length bytes.now ≤ MOST_BYTES }
    ensures { result ≡ found_in bytes.now }
{
    match bytes {
        [] => None,
        [first, rest @ ..] => found_from(*first, rest, bytes),
    }
}

/// The longest piece that begins with `first` and goes on in `rest`; `bytes` are both.
fn found_from(first: u8, rest: &[u8], bytes: &[u8]) -> Option<(Piece, u32)>
    requires whole { bytes.now ≡ first ∷ rest.now }
    requires small { length bytes.now ≤ MOST_BYTES }
    ensures { result ≡ found_from first rest.now }
{
    if is_white(first) {
        Some((Piece::Blank, 1))
    } else if is_name_start(first) {
        Some(found_name(rest, bytes))
    } else if first == b'0' {
        Some((Piece::Word(TokenKind::Number), 1))
    } else if is_digit(first) {
        Some(found_number(rest))
    } else if first == b'"' {
        Some(found_text(rest))
    } else if first == b'/' {
        Some(found_slash(rest))
    } else {
        found_symbol(first, rest)
    }
}

fn found_name(rest: &[u8], bytes: &[u8]) -> (Piece, u32)
    requires whole { length bytes.now ≡ 1 + length rest.now }
    requires small { length bytes.now ≤ MOST_BYTES }
    ensures { let len = 1 + prefix_len is_name_part rest.now in result ≡ (word keywords (take len bytes.now), len) }
{
    let len = 1 + name_len(rest);
    let kind = if is_keyword(&bytes[..len]) {
        TokenKind::Keyword
    } else {
        TokenKind::Name
    };
    (Piece::Word(kind), len as u32)
}

fn found_number(rest: &[u8]) -> (Piece, u32)
    requires { length rest.now < MOST_BYTES }
    ensures { result ≡ found_number rest.now }
{
    (Piece::Word(TokenKind::Number), 1 + digits_len(rest) as u32)
}

/// How many of the bytes, from the first on, are a name's.
fn name_len(bytes: &[u8]) -> usize
    ensures len { result ≡ prefix_len is_name_part bytes.now }
    ensures within { result ≤ length bytes.now }
{
    bytes.iter().take_while(|byte| is_name_part(**byte)).count()
}

fn digits_len(bytes: &[u8]) -> usize
    ensures len { result ≡ prefix_len is_digit bytes.now }
    ensures within { result ≤ length bytes.now }
{
    bytes.iter().take_while(|byte| is_digit(**byte)).count()
}

fn line_len(bytes: &[u8]) -> usize
    ensures len { result ≡ prefix_len (λ byte. not (is_line_end byte)) bytes.now }
    ensures within { result ≤ length bytes.now }
{
    bytes.iter().take_while(|byte| !is_line_end(**byte)).count()
}

/// How many bytes there are before the first `\`.
fn plain_len(bytes: &[u8]) -> usize
    ensures len { result ≡ prefix_len (λ byte. not (byte == 92)) bytes.now }
    ensures within { result ≤ length bytes.now }
{
    bytes.iter().take_while(|byte| **byte != b'\\').count()
}

fn found_text(rest: &[u8]) -> (Piece, u32)
    requires { length rest.now < MOST_BYTES }
    ensures { result ≡ found_text rest.now }
{
    match text_end(rest) {
        None => (fault(Rule::OpenText, 0), 1),
        Some(len) => (closed_text(&rest[..len]), 1 + len as u32),
    }
}

fn fault(rule: Rule, behind: u32) -> Piece
    ensures { result ≡ Piece.Fault rule behind }
{
    Piece::Fault { rule, behind }
}

/// What a text is whose bytes after the `"` are these.
fn closed_text(bytes: &[u8]) -> Piece
    requires { length bytes.now < MOST_BYTES }
    ensures { result ≡ closed_text bytes.now }
{
    let before = plain_len(bytes);
    if before == bytes.len() {
        Piece::Word(TokenKind::Text)
    } else {
        fault(Rule::BadByte, 1 + before as u32)
    }
}

/// How many of the bytes after a `"` belong to the text, if it is closed.
fn text_end(bytes: &[u8]) -> Option<usize>
    ensures end { result ≡ text_end bytes.now }
    ensures within { IfSome result (λ len. len ≤ length bytes.now) }
{
    for (place, byte) in bytes.iter().enumerate() {
        match *byte {
            b'"' => return Some(place + 1),
            b'\n' | b'\r' => return None,
            _ => {}
        }
    }
    None
}

fn found_slash(rest: &[u8]) -> (Piece, u32)
    requires { length rest.now < MOST_BYTES }
    ensures { result ≡ found_slash rest.now }
{
    match rest {
        [b'/', line @ ..] => { (Piece::Blank, 2 + line_len(line) as u32) }
        [b'*', comment @ ..] => match comment_end(comment) {
            None => (fault(Rule::OpenComment, 0), 2),
            Some(len) => (Piece::Blank, 2 + len as u32),
        },
        _ => (Piece::Word(TokenKind::Symbol), 1),
    }
}

/// How many of the bytes after a `/*` belong to the comment, if it is closed.
fn comment_end(bytes: &[u8]) -> Option<usize>
    ensures end { result ≡ comment_end bytes.now }
    ensures within { IfSome result (λ len. len ≤ length bytes.now) }
{
    for (place, byte) in bytes.iter().enumerate() {
        if ends_comment(*byte, &bytes[place + 1..]) {
            return Some(place + 2);
        }
    }
    None
}

/// Whether a `*/` begins with this byte, where these bytes come next.
fn ends_comment(byte: u8, next: &[u8]) -> bool
    ensures { result ≡ ((byte == 42) && starts_with_slash next.now) }
{
    byte == b'*' && next.first() == Some(&b'/')
}

fn found_symbol(first: u8, rest: &[u8]) -> Option<(Piece, u32)>
    ensures { result ≡ found_symbol first rest.now }
{
    match rest {
        [next, ..] if is_pair(first, *next) => Some((Piece::Word(TokenKind::Symbol), 2)),
        _ if is_symbol(first) => Some((Piece::Word(TokenKind::Symbol), 1)),
        _ => None,
    }
}

fn is_white(byte: u8) -> bool
    ensures { result ≡ is_white byte }
{
    matches!(byte, b' ' | b'\t' | b'\r' | b'\n' | b'\x0C')
}

fn is_name_start(byte: u8) -> bool
    ensures { result ≡ is_name_start byte }
{
    matches!(byte, b'A'..=b'Z' | b'a'..=b'z' | b'_' | b'$')
}

fn is_name_part(byte: u8) -> bool
    ensures { result ≡ is_name_part byte }
{
    matches!(byte, b'A'..=b'Z' | b'a'..=b'z' | b'_' | b'$' | b'0'..=b'9')
}

fn is_digit(byte: u8) -> bool
    ensures { result ≡ is_digit byte }
{
    byte.is_ascii_digit()
}

fn is_line_end(byte: u8) -> bool
    ensures { result ≡ is_line_end byte }
{
    matches!(byte, b'\n' | b'\r')
}

fn is_symbol(byte: u8) -> bool
    ensures { result ≡ is_symbol byte }
{
    matches!(
        byte,
        b'(' | b')' | b'{' | b'}' | b',' | b';' | b'=' | b'<' | b'>' | b'+' | b'-' | b'*'
    )
}

fn is_pair(byte: u8, next: u8) -> bool
    ensures { result ≡ is_pair byte next }
{
    match byte {
        b'=' | b'!' | b'<' | b'>' => next == b'=',
        b'&' | b'|' => next == byte,
        _ => false,
    }
}

fn is_keyword(word: &[u8]) -> bool
    ensures { result ≡ list_any (λ keyword. bytes_eq word.now keyword) keywords }
{
    word == b"function".as_slice()
        || word == b"while".as_slice()
        || word == b"if".as_slice()
        || word == b"else".as_slice()
        || word == b"return".as_slice()
        || word == b"break".as_slice()
        || word == b"continue".as_slice()
        || word == b"debugger".as_slice()
}
