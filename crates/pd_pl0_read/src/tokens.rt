//! The words of tokens.
ghost use Rattle.std.specs.Prelude.{◌≡◌, ◌+◌, ◌≤◌, ◌==◌, length, if◌then◌else◌};
ghost use Rattle.pd_pl0_read.specs.Behind.{shape, name_in};
ghost use Rattle.pd_pl0_read.specs.Resolving.{value_of};
ghost use Rattle.pd_pl0_read.specs.Tokens.{decimal, keyword, single, pair, symbol, word_at};

use crate::parts::Word;
use pd_sections::{Section, Source, Token, TokenKind};
use pd_tree::Operator;

/// The largest number of 64 bits with a sign: 2^63 - 1.
const LARGEST: u64 = 9_223_372_036_854_775_807;

/// The value of some digits, if it is at most `LARGEST`.
fn number(digits: &[u8]) -> Option<i64>
    ensures { result ≡ value_of (decimal 0 digits.now) }
{
    let mut value: u64 = 0;
    for digit in digits {
        if value > LARGEST / 10 {
            return None;
        }
        value = value * 10 + u64::from(digit.saturating_sub(b'0'));
        if value > LARGEST {
            return None;
        }
    }
    Some(value as i64)
}

/// The keyword of this length that begins with this byte; the length tells `const` from `call`. The last arm is `odd`:
/// the lexer makes no other keyword.
fn keyword(first: u8, len: usize) -> Word
    ensures { result ≡ shape (keyword first len) }
{
    match first {
        b'c' => {
            if len == 5 {
                Word::ConstKey
            } else {
                Word::CallKey
            }
        }
        b'v' => Word::VarKey,
        b'p' => Word::ProcedureKey,
        b'b' => Word::BeginKey,
        b'e' => Word::EndKey,
        b'i' => Word::IfKey,
        b't' => Word::ThenKey,
        b'w' => Word::WhileKey,
        b'd' => Word::DoKey,
        _ => Word::OddKey,
    }
}

/// The symbol of this byte. The last arm is `!`: the lexer makes no other symbol of one byte.
fn single(first: u8) -> Word
    ensures { result ≡ shape (single first) }
{
    match first {
        b'.' => Word::Period,
        b',' => Word::Comma,
        b';' => Word::Semicolon,
        b'=' => Word::Compares(Operator::Equal),
        b'#' => Word::Compares(Operator::NotEqual),
        b'<' => Word::Compares(Operator::Less),
        b'>' => Word::Compares(Operator::Greater),
        b'+' => Word::Adds(Operator::Add),
        b'-' => Word::Adds(Operator::Sub),
        b'*' => Word::Multiplies(Operator::Mul),
        b'/' => Word::Multiplies(Operator::Div),
        b'(' => Word::Open,
        b')' => Word::Close,
        _ => Word::Writes,
    }
}

/// The symbol of two bytes that begins with this one. The last arm is `>=`: the lexer makes no other.
fn pair(first: u8) -> Word
    ensures { result ≡ shape (pair first) }
{
    match first {
        b':' => Word::Becomes,
        b'<' => Word::Compares(Operator::LessEq),
        _ => Word::Compares(Operator::GreaterEq),
    }
}

/// The symbol of this text.
fn symbol(text: &[u8]) -> Word
    requires { 1 ≤ length text.now }
    ensures { result ≡ shape (symbol text.now) }
{
    if text.len() == 1 {
        single(text[0])
    } else {
        pair(text[0])
    }
}

/// The text of a token of this source.
fn text_of(source: &Source, token: Token) -> &[u8]
    requires { token.start + token.len ≤ length source.now.bytes }
    ensures { result.now ≡ Rattle.pd_pl0_read.specs.Tokens.text_of source.now.bytes token }
{
    source.text_of(Section {
        source: 0,
        start: token.start,
        len: token.len,
    })
}

/// The word of a token of this source. PL/0 has no tokens that are texts.
pub fn word_of(source: &Source, token: Token) -> Word
    requires within { token.start + token.len ≤ length source.now.bytes }
    requires some { 1 ≤ token.len }
    ensures { result ≡ shape (word_at source.now.bytes token) }
{
    let text = text_of(source, token);
    match token.kind {
        TokenKind::Name => Word::Name,
        TokenKind::Number => Word::Number(number(text)),
        TokenKind::Keyword => keyword(text[0], text.len()),
        TokenKind::Symbol | TokenKind::Text => symbol(text),
    }
}

/// The bytes of a token that is a name; of any other none.
pub fn name_of(source: &Source, token: Token) -> &[u8]
    requires { token.start + token.len ≤ length source.now.bytes }
    ensures { result.now ≡ name_in (word_at source.now.bytes token) }
{
    let text = text_of(source, token);
    match token.kind {
        TokenKind::Name => text,
        _ => &text[..0],
    }
}
