//! From tokens to a tree.
ghost use Rattle.std.specs.Prelude.{◌≤◌, length, IfOk, IfErr, OnOk};
ghost use Rattle.pd_sections.specs.Lexing.{InOrder};
ghost use Rattle.pd_pl0_read.specs.Answers.{StopsFor};
ghost use Rattle.pd_pl0_parse.specs.Additions.{IsAdded, IsTreeOf};

use crate::kinds::{constants_of, kind_of, meaning_of};
use crate::texts::section_of;
use pd_pl0_read::{Part, parts_of};
use pd_sections::{Refusal, Source, Stop, Tokens};
use pd_tree::{Addition, Builder, Tree};
use pd_turn::Node;
use std::alloc::{AllocError, Global};

/// Adds the next node of a source to its tree.
fn add(
    alloc: Global,
    builder: &mut Builder,
    source: &Source,
    number: u32,
    tokens: &Tokens,
    node: &Node<Part>,
) -> Result<(), AllocError>
    requires { InOrder 0 (length source.now.bytes) tokens.now }
    ensures { OnOk result (IsAdded source.now.bytes tokens.now number node.now builder.old builder.new) }
{
    let part = node.what;
    let kind = kind_of(alloc, source, tokens, part)?;
    let constants = constants_of(alloc, source, tokens, part)?;
    let section = section_of(source, number, tokens, part);
    builder.push(Addition {
        kind,
        section,
        line: source.line_of(section.start),
        column: source.column_of(section.start),
        meaning: meaning_of(part.shape),
        children: node.parts,
        constants,
    })
}

/// The tree of the one program that the tokens spell within the rules, or the first breach of a rule: at the first byte
/// of a token, or at the source's length. `number` is the source's number in its plan, and `room`, at most 65,536,
/// the number of nodes that may still be made.
pub fn parse(
    alloc: Global,
    source: &Source,
    number: u32,
    tokens: &Tokens,
    room: u32,
) -> Result<Tree, Stop<Refusal>>
    requires tokens { InOrder 0 (length source.now.bytes) tokens.now }
    requires few { room ≤ 65536 }
    ensures spelled { IfOk result (IsTreeOf room source.now.bytes tokens.now number) }
    ensures refused { IfErr result (StopsFor room source.now.bytes tokens.now) }
{
    // For the contract: `bytes` says that a source has at most 1,048,576 bytes, all of them UTF-8.
    let _ = source.bytes();
    let nodes = match parts_of(alloc, source, tokens, room) {
        Ok(nodes) => nodes,
        Err(stop) => return Err(stop),
    };
    let mut builder = Builder::new(alloc);
    for node in &nodes {
        add(alloc, &mut builder, source, number, tokens, node)?;
    }
    Ok(builder.finish())
}
