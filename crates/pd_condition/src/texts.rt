//! Reading the text of a condition.
ghost use Rattle.std.specs.Prelude.{◌≡◌, ◌+◌, ◌≤◌, length, Some, IfOk, IfErr};
ghost use Rattle.pd_sections.specs.Lexing.{InOrder};
ghost use Rattle.pd_sl_read.specs.Tokens.{text_of};
ghost use Rattle.pd_sl_parse.specs.Additions.{IsText, inner};
ghost use Rattle.pd_sl_parse.specs.Texts.{IsSpelled, AllSpelled};
ghost use Rattle.pd_sections.specs.declared.Stop.{Stop};
ghost use Rattle.pd_condition.specs.Turns.{HasCharacters};
ghost use Rattle.pd_condition.specs.Answers.{IsConditionOf, StopsFor, Reads, StopsReading};
ghost use Rattle.pd_condition.specs.Found.{condition_in, StopsAtNone};

use crate::reader::Reader;
use pd_plan::Condition;
use pd_sections::{MOST_BYTES, Refusal, Rule, Section, Source, Stop, Token, TokenKind, Tokens};
use pd_sl_read::word_of;
use pd_values::Text;
use std::alloc::{AllocError, Global};

/// A text's bytes without its first and its last.
fn inner(text: &[u8]) -> &[u8]
    ensures { result.now ≡ inner text.now }
{
    let rest = if text.is_empty() { text } else { &text[1..] };
    &rest[..text.len().saturating_sub(2)]
}

/// The characters of these bytes, which are UTF-8; of bytes that aren't the empty text.
fn characters(alloc: Global, bytes: &[u8]) -> Result<Text, AllocError>
    ensures { IfOk result (λ text. IsText bytes.now text) }
{
    match std::str::from_utf8(bytes) {
        Ok(chars) => Ok(Text::of(String::from_str(alloc, chars)?)),
        Err(_) => Ok(Text::of(String::new(alloc))),
    }
}

/// The characters of a name, and those of a text between its `"`; of another token none.
fn characters_of(alloc: Global, source: &Source, token: Token) -> Result<Text, AllocError>
    requires within { token.start + token.len ≤ length source.now.bytes }
    ensures { IfOk result (HasCharacters token.kind (text_of source.now.bytes token)) }
{
    let text = source.text_of(Section {
        source: 0,
        start: token.start,
        len: token.len,
    });
    match token.kind {
        TokenKind::Name => characters(alloc, text),
        TokenKind::Text => characters(alloc, inner(text)),
        TokenKind::Number | TokenKind::Keyword | TokenKind::Symbol => {
            Ok(Text::of(String::new(alloc)))
        }
    }
}

/// The one condition that the tokens spell within the rules, or the first breach of a rule.
fn read_tokens(alloc: Global, source: &Source, tokens: &Tokens) -> Result<Condition, Stop<Refusal>>
    requires order { InOrder 0 (length source.now.bytes) tokens.now }
    requires spelled { AllSpelled source.now.bytes tokens.now }
    ensures spelled { IfOk result (IsConditionOf source.now.bytes tokens.now) }
    ensures refused { IfErr result (StopsFor source.now.bytes tokens.now) }
{
    let end = source.bytes().len() as u32;
    let mut reader = Reader::new(alloc);
    for at in 0..tokens.len() {
        let token = tokens.get(at);
        let chars = characters_of(alloc, source, token)?;
        let word = word_of(source, token);
        reader = match reader.take(word, chars) {
            Ok(next) => next,
            Err(Stop::Refused(rule)) => {
                let at = token.start;
                return Err(Stop::Refused(Refusal { rule, at }));
            }
            Err(Stop::Memory) => return Err(Stop::Memory),
        };
    }
    match reader.finish()? {
        Some(condition) => Ok(condition),
        None => {
            let rule = Rule::Unexpected;
            Err(Stop::Refused(Refusal { rule, at: end }))
        }
    }
}

/// The one condition that a source is, or its first refusal.
fn read_source(alloc: Global, source: &Source) -> Result<Condition, Stop<Refusal>>
    ensures condition { IfOk result (Reads source.now.bytes) }
    ensures refused { IfErr result (StopsReading source.now.bytes) }
{
    let _ = source.bytes();
    let tokens = pd_sl_lex::lex(alloc, source)?;
    read_tokens(alloc, source, &tokens)
}

/// The text as a source without a name.
fn source_of(alloc: Global, text: &Text) -> Result<Source, Stop<Refusal>>
    requires { length text.now ≤ MOST_BYTES }
    ensures bytes { IfOk result (λ source. source.bytes ≡ text.now) }
    ensures memory { IfErr result (λ stop. stop ≡ Stop.Memory) }
{
    let mut bytes = Vec::new(alloc);
    bytes.extend_from_slice(text.as_str().as_bytes())?;
    match Source::new(alloc, String::new(alloc), bytes) {
        Ok(source) => Ok(source),
        Err(Stop::Memory) => Err(Stop::Memory),
        Err(Stop::Refused(_)) => unreachable!(),
    }
}

/// The one condition that a text is, or its first refusal.
fn read_text(alloc: Global, text: &Text) -> Result<Condition, Stop<Refusal>>
    requires { length text.now ≤ MOST_BYTES }
    ensures condition { IfOk result (Reads text.now) }
    ensures refused { IfErr result (StopsReading text.now) }
{
    let source = source_of(alloc, text)?;
    read_source(alloc, &source)
}

/// The one condition that a text is within the rules, or its first refusal: at the byte that starts no token, at the
/// first byte of a token, or at the text's length. Memory may run out at any point: then `Stop::Memory`.
pub fn read(alloc: Global, text: &Text) -> Result<Condition, Stop<Refusal>>
    requires { length text.now ≤ MOST_BYTES }
    ensures condition { IfOk result (Reads text.now) }
    ensures refused { IfErr result (StopsReading text.now) }
    ensures found { IfOk result (λ c. condition_in text.now ≡ Some c) }
    ensures none { IfErr result (StopsAtNone text.now) }
{
    read_text(alloc, text)
}
