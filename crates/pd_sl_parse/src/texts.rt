//! Tokens by their numbers, and their texts.
ghost use Rattle.std.specs.Prelude.{◌≡◌, ℕ, ◌<◌, ◌≤◌, ◌+◌, List, length, IfOk};
ghost use Rattle.std.specs.Str.{IsUtf8};
ghost use Rattle.pd_sections.specs.Lexing.{InOrder, Splits};
ghost use Rattle.pd_sections.specs.SlPieces.{sl_piece};
ghost use Rattle.pd_tree.specs.declared.addition.Addition.{Addition};
ghost use Rattle.pd_sl_parse.specs.Additions.{IsText, IsTreeOf, section_of};
ghost use Rattle.pd_sl_parse.specs.Scopes.{token_at, text_at};
ghost use Rattle.pd_sl_parse.specs.Texts.{AllSpelled};

use pd_sections::{Section, Source, Token, TokenKind, Tokens};
use pd_sl_read::Part;
use pd_values::Text;
use std::alloc::{AllocError, Global};

/// What stands for a token after the last one.
const NO_TOKEN: Token = Token {
    kind: TokenKind::Name,
    start: 0,
    len: 0,
};

/// The token with this number, or one of no length at the source's first byte.
pub fn token_at(source: &Source, tokens: &Tokens, i: usize) -> Token
    requires { InOrder 0 (length source.now.bytes) tokens.now }
    ensures token { result ≡ token_at tokens.now i }
    ensures within { result.start + result.len ≤ length source.now.bytes }
{
    // Only the contract reads `source`: its clauses speak of the source's bytes.
    let _ = source;
    if i < tokens.len() as usize {
        tokens.get(i as u32)
    } else {
        NO_TOKEN
    }
}

/// The text of the token with this number.
pub fn text_at<'a>(source: &'a Source, tokens: &Tokens, i: usize) -> &'a [u8]
    requires { InOrder 0 (length source.now.bytes) tokens.now }
    ensures { result.now ≡ text_at source.now.bytes tokens.now i }
{
    let token = token_at(source, tokens, i);
    source.text_of(Section {
        source: 0,
        start: token.start,
        len: token.len,
    })
}

/// The section of these tokens in the source with this number.
pub fn section_of(source: &Source, number: u32, tokens: &Tokens, part: Part) -> Section
    requires { InOrder 0 (length source.now.bytes) tokens.now }
    ensures section { result ≡ section_of number tokens.now part }
    ensures within { result.start ≤ length source.now.bytes }
{
    let small = source.bytes().len() as u32;
    let first = token_at(source, tokens, part.first as usize);
    let last = token_at(source, tokens, part.end.saturating_sub(1) as usize);
    let end = last.start + last.len;
    prove!(end <= small);
    Section {
        source: number,
        start: first.start,
        len: end.saturating_sub(first.start),
    }
}

/// The characters of these bytes, which are UTF-8; of bytes that aren't the empty text.
pub fn characters(alloc: Global, bytes: &[u8]) -> Result<Text, AllocError>
    ensures { IfOk result (λ text. IsText bytes.now text) }
{
    match std::str::from_utf8(bytes) {
        Ok(chars) => Ok(Text::of(String::from_str(alloc, chars)?)),
        Err(_) => Ok(Text::of(String::new(alloc))),
    }
}

/// In a source whose bytes are UTF-8 so are those of each name, and those of each text between its `"`.
pub fn texts_law()
    ensures { (bytes : List ℕ) (tokens : List Token) → IsUtf8 bytes → Splits sl_piece bytes tokens → AllSpelled bytes tokens }
{}

/// A source whose bytes are UTF-8 has one tree.
pub fn one_tree_law()
    ensures { (room : ℕ) (bytes : List ℕ) (tokens : List Token) (source : ℕ) (t u : List Addition) → IsUtf8 bytes → Splits sl_piece bytes tokens → IsTreeOf room bytes tokens source t → IsTreeOf room bytes tokens source u → t ≡ u }
{}
