//! The words of tokens.
ghost use Rattle.std.specs.Prelude.{◌≡◌, ◌+◌, ◌≤◌, ◌==◌, length, if◌then◌else◌};
ghost use Rattle.pd_sl_read.specs.Behind.{shape};
ghost use Rattle.pd_sl_read.specs.Places.{value_of};
ghost use Rattle.pd_sl_read.specs.Tokens.{decimal, keyword, single, pair, word_at};

use crate::parts::Word;
use pd_sections::{Section, Source, Token, TokenKind};
use pd_tree::Operator;

/// The largest number of 64 bits with a sign: 2^63 - 1.
const LARGEST: u64 = 9_223_372_036_854_775_807;

/// The value of some digits, if it is at most `LARGEST`.
fn number(digits: &[u8]) -> Option<i64>
    ensures { result ≡ value_of (decimal 0 digits.now) }
{
    let mut value: u64 = 0;
    for digit in digits {
        if value > LARGEST / 10 {
            return None;
        }
        value = value * 10 + u64::from(digit.saturating_sub(b'0'));
        if value > LARGEST {
            return None;
        }
    }
    Some(value as i64)
}

/// The keyword that begins with this byte. The last arm is `debugger`: the lexer makes no other keyword.
fn keyword(first: u8) -> Word
    ensures { result ≡ shape (keyword first) }
{
    match first {
        b'f' => Word::FunctionKey,
        b'w' => Word::WhileKey,
        b'i' => Word::IfKey,
        b'e' => Word::ElseKey,
        b'r' => Word::ReturnKey,
        b'b' => Word::BreakKey,
        b'c' => Word::ContinueKey,
        _ => Word::DebuggerKey,
    }
}

/// The symbol of this byte. The last arm is `>`: the lexer makes no other symbol of one byte.
fn single(first: u8) -> Word
    ensures { result ≡ shape (single first) }
{
    match first {
        b'(' => Word::Open,
        b')' => Word::Close,
        b'{' => Word::OpenBlock,
        b'}' => Word::CloseBlock,
        b',' => Word::Comma,
        b';' => Word::Semicolon,
        b'+' => Word::Adds(Operator::Add),
        b'-' => Word::Adds(Operator::Sub),
        b'*' => Word::Multiplies(Operator::Mul),
        b'/' => Word::Multiplies(Operator::Div),
        b'=' => Word::Becomes,
        b'<' => Word::Compares(Operator::Less),
        _ => Word::Compares(Operator::Greater),
    }
}

/// The symbol of two bytes that begins with this one. The last arm is `||`: the lexer makes no other.
fn pair(first: u8) -> Word
    ensures { result ≡ shape (pair first) }
{
    match first {
        b'=' => Word::Compares(Operator::Equal),
        b'!' => Word::Compares(Operator::NotEqual),
        b'<' => Word::Compares(Operator::LessEq),
        b'>' => Word::Compares(Operator::GreaterEq),
        b'&' => Word::And,
        _ => Word::Or,
    }
}

/// The word of a token of this source.
pub fn word_of(source: &Source, token: Token) -> Word
    requires within { token.start + token.len ≤ length source.now.bytes }
    requires some { 1 ≤ token.len }
    ensures { result ≡ shape (word_at source.now.bytes token) }
{
    let text = source.text_of(Section {
        source: 0,
        start: token.start,
        len: token.len,
    });
    match token.kind {
        TokenKind::Name => Word::Name,
        TokenKind::Number => Word::Number(number(text)),
        TokenKind::Text => Word::Text,
        TokenKind::Keyword => keyword(text[0]),
        TokenKind::Symbol => {
            if text.len() == 1 {
                single(text[0])
            } else {
                pair(text[0])
            }
        }
    }
}
