//! The kinds of nodes, with the texts of their own tokens.
ghost use Rattle.std.specs.Prelude.{◌≡◌, ◌<◌, ◌+◌, ◌^◌, length, IfOk};
ghost use Rattle.pd_sections.specs.Lexing.{InOrder};
ghost use Rattle.pd_tree.specs.Linked.{names_in};
ghost use Rattle.pd_pl0_parse.specs.Texts.{first_constant, first_variable};
ghost use Rattle.pd_pl0_parse.specs.Additions.{AreNames, AreVariables, KindIs, ConstantsAre, meaning_in};

use crate::texts::{characters, text_at};
use pd_pl0_read::{Part, Shape};
use pd_sections::{Source, Tokens};
use pd_tree::{Kind, Meaning};
use pd_values::{Items, Text};
use std::alloc::{AllocError, Global};

/// So many names, of which the first is this token, and each next one four tokens on.
fn every_fourth(
    alloc: Global,
    source: &Source,
    tokens: &Tokens,
    first: usize,
    count: u32,
) -> Result<Items<Text>, AllocError>
    requires tokens { InOrder 0 (length source.now.bytes) tokens.now }
    requires few { first < 2 ^ 36 }
    ensures { IfOk result (λ names. AreNames source.now.bytes tokens.now first 4 count names) }
{
    let mut names = Vec::new(alloc);
    for k in 0..count {
        let token = first + 4 * k as usize;
        let name = characters(alloc, text_at(source, tokens, token))?;
        names.push(name)?;
    }
    Ok(Items::of(names))
}

/// So many names, of which the first is this token, and each next one two tokens on.
fn every_second(
    alloc: Global,
    source: &Source,
    tokens: &Tokens,
    first: usize,
    count: u32,
) -> Result<Items<Text>, AllocError>
    requires tokens { InOrder 0 (length source.now.bytes) tokens.now }
    requires few { first < 2 ^ 36 }
    ensures { IfOk result (λ names. AreNames source.now.bytes tokens.now first 2 count names) }
{
    let mut names = Vec::new(alloc);
    for k in 0..count {
        let token = first + 2 * k as usize;
        let name = characters(alloc, text_at(source, tokens, token))?;
        names.push(name)?;
    }
    Ok(Items::of(names))
}

/// The first token after `var` in a block that begins at this token and has so many constants.
fn first_variable(first: usize, constants: u32) -> usize
    requires { first < 2 ^ 33 }
    ensures value { result ≡ first_variable first constants }
    ensures few { result < 2 ^ 36 }
{
    if constants == 0 {
        first + 1
    } else {
        first + 4 * constants as usize + 2
    }
}

/// The variables of a block that begins at this token and has so many constants.
fn variables_of(
    alloc: Global,
    source: &Source,
    tokens: &Tokens,
    first: usize,
    constants: u32,
    count: u32,
) -> Result<Items<Text>, AllocError>
    requires tokens { InOrder 0 (length source.now.bytes) tokens.now }
    requires few { first < 2 ^ 33 }
    ensures { IfOk result (λ names. AreVariables source.now.bytes tokens.now first constants count names) }
{
    let first = first_variable(first, constants);
    every_second(alloc, source, tokens, first, count)
}

/// The constants that a node's block declares, if it has one.
pub fn constants_of(
    alloc: Global,
    source: &Source,
    tokens: &Tokens,
    part: Part,
) -> Result<Items<Text>, AllocError>
    requires { InOrder 0 (length source.now.bytes) tokens.now }
    ensures { IfOk result (λ names. ConstantsAre source.now.bytes tokens.now part.shape part.first names) }
{
    let first = part.first as usize;
    match part.shape {
        Shape::Main(count, _) => every_fourth(alloc, source, tokens, first + 1, count),
        Shape::Procedure(count, _) => every_fourth(alloc, source, tokens, first + 3 + 1, count),
        _ => Ok(Items::of(Vec::new(alloc))),
    }
}

/// What a node's name means.
pub fn meaning_of(shape: Shape) -> Meaning
    ensures { result ≡ meaning_in shape }
{
    match shape {
        Shape::Assign(meaning) | Shape::Name(meaning) => meaning,
        _ => Meaning::Nothing,
    }
}

/// The kind of a node.
pub fn kind_of(
    alloc: Global,
    source: &Source,
    tokens: &Tokens,
    part: Part,
) -> Result<Kind, AllocError>
    requires { InOrder 0 (length source.now.bytes) tokens.now }
    ensures few { IfOk result (λ kind. length (names_in kind) < 2 ^ 32) }
    ensures kind { IfOk result (λ kind. KindIs source.now.bytes tokens.now part.shape part.first kind) }
{
    let first = part.first as usize;
    let kind = match part.shape {
        Shape::Main(constants, count) => {
            let name = Text::of(String::from_str(alloc, "main")?);
            let variables = variables_of(alloc, source, tokens, first, constants, count)?;
            Kind::PlProcedure { name, variables }
        }
        Shape::Procedure(constants, count) => {
            let name = characters(alloc, text_at(source, tokens, first + 1))?;
            let variables = variables_of(alloc, source, tokens, first + 3, constants, count)?;
            Kind::PlProcedure { name, variables }
        }
        Shape::Body => Kind::PlBody,
        Shape::Empty => Kind::PlEmpty,
        Shape::Begin => Kind::PlBegin,
        Shape::If => Kind::PlIf,
        Shape::While => Kind::PlWhile,
        Shape::Assign(_) => { Kind::PlAssign(characters(alloc, text_at(source, tokens, first))?) }
        Shape::Call => Kind::PlCall(characters(alloc, text_at(source, tokens, first + 1))?),
        Shape::Write => Kind::PlWrite,
        Shape::Odd => Kind::PlOdd,
        Shape::Binary(operator) => Kind::PlBinary(operator),
        Shape::Plus => Kind::PlPlus,
        Shape::Minus => Kind::PlMinus,
        Shape::Name(_) => Kind::PlName(characters(alloc, text_at(source, tokens, first))?),
        Shape::Number(value) => Kind::PlNumber(value),
    };
    Ok(kind)
}
