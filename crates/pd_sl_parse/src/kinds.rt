//! The kinds of nodes, with the texts of their own tokens.
ghost use Rattle.std.specs.Prelude.{◌≡◌, ◌<◌, ◌^◌, length, IfOk};
ghost use Rattle.pd_sections.specs.Lexing.{InOrder};
ghost use Rattle.pd_tree.specs.Linked.{names_in};
ghost use Rattle.pd_sl_parse.specs.Additions.{inner, AreNames, KindIs};

use crate::texts::{characters, text_at};
use pd_sections::{Source, Tokens};
use pd_sl_read::{Part, Shape};
use pd_tree::Kind;
use pd_values::{Items, Text};
use std::alloc::{AllocError, Global};

/// A text's bytes without its first and its last.
fn inner(text: &[u8]) -> &[u8]
    ensures { result.now ≡ inner text.now }
{
    let rest = if text.is_empty() { text } else { &text[1..] };
    &rest[..text.len().saturating_sub(2)]
}

/// The names of a function's parameters, of which the first is this token, and every second.
fn names_of(
    alloc: Global,
    source: &Source,
    tokens: &Tokens,
    first: usize,
    count: u32,
) -> Result<Items<Text>, AllocError>
    requires tokens { InOrder 0 (length source.now.bytes) tokens.now }
    requires few { first < 2 ^ 33 }
    ensures { IfOk result (λ names. AreNames source.now.bytes tokens.now first count names) }
{
    let mut names = Vec::new(alloc);
    for k in 0..count {
        let token = first + 2 * k as usize;
        let name = characters(alloc, text_at(source, tokens, token))?;
        names.push(name)?;
    }
    Ok(Items::of(names))
}

/// The kind of a node.
pub fn kind_of(
    alloc: Global,
    source: &Source,
    tokens: &Tokens,
    part: Part,
) -> Result<Kind, AllocError>
    requires { InOrder 0 (length source.now.bytes) tokens.now }
    ensures few { IfOk result (λ kind. length (names_in kind) < 2 ^ 32) }
    ensures kind { IfOk result (λ kind. KindIs source.now.bytes tokens.now part.shape part.first kind) }
{
    let first = part.first as usize;
    match part.shape {
        Shape::Function(count) => {
            let name = characters(alloc, text_at(source, tokens, first + 1))?;
            let parameters = names_of(alloc, source, tokens, first + 3, count)?;
            Ok(Kind::SlFunction { name, parameters })
        }
        Shape::Body => Ok(Kind::SlBody),
        Shape::Block => Ok(Kind::SlBlock),
        Shape::If => Ok(Kind::SlIf),
        Shape::While => Ok(Kind::SlWhile),
        Shape::Return => Ok(Kind::SlReturn),
        Shape::Break => Ok(Kind::SlBreak),
        Shape::Continue => Ok(Kind::SlContinue),
        Shape::Debugger => Ok(Kind::SlDebugger),
        Shape::Or => Ok(Kind::SlOr),
        Shape::And => Ok(Kind::SlAnd),
        Shape::Binary(operator) => Ok(Kind::SlBinary(operator)),
        Shape::Call => Ok(Kind::SlCall),
        Shape::Assign => {
            let name = characters(alloc, text_at(source, tokens, first))?;
            Ok(Kind::SlAssign(name))
        }
        Shape::Name => {
            let name = characters(alloc, text_at(source, tokens, first))?;
            Ok(Kind::SlName(name))
        }
        Shape::Number(value) => Ok(Kind::SlNumber(value)),
        Shape::Text => {
            let chars = characters(alloc, inner(text_at(source, tokens, first)))?;
            Ok(Kind::SlText(chars))
        }
    }
}
