//! From tokens to a tree.
ghost use Rattle.std.specs.Prelude.{◌≡◌, ◌<◌, ◌≤◌, ◌+◌, ◌^◌, length, IfOk, IfErr, OnOk};
ghost use Rattle.pd_sections.specs.Lexing.{InOrder};
ghost use Rattle.pd_sl_read.specs.Answers.{StopsFor};
ghost use Rattle.pd_sl_parse.specs.Additions.{IsAdded, IsTreeOf};
ghost use Rattle.pd_sl_parse.specs.Scopes.{entered};

use crate::kinds::kind_of;
use crate::scope::Scope;
use crate::texts::section_of;
use pd_sections::{Refusal, Source, Stop, Tokens};
use pd_sl_read::{Part, parts_of};
use pd_tree::{Builder, Tree};
use pd_turn::Node;
use std::alloc::{AllocError, Global};

/// Adds the next node of a source to its tree.
fn add<'a>(
    alloc: Global,
    builder: &mut Builder,
    scope: &mut Scope<'a>,
    source: &'a Source,
    number: u32,
    tokens: &Tokens,
    node: &Node<Part>,
) -> Result<(), AllocError>
    requires tokens { InOrder 0 (length source.now.bytes) tokens.now }
    requires room { scope.old.slots + 1 < 2 ^ 32 }
    ensures scope { OnOk result (scope.new ≡ entered source.now.bytes tokens.now node.now.what scope.old) }
    ensures added { OnOk result (IsAdded source.now.bytes tokens.now number scope.new node.now builder.old builder.new) }
{
    let part = node.what;
    scope.enter(source, tokens, part)?;
    let meaning = scope.meaning(source, tokens, part);
    let kind = kind_of(alloc, source, tokens, part)?;
    let section = section_of(source, number, tokens, part);
    let line = source.line_of(section.start);
    let column = source.column_of(section.start);
    builder.add(kind, section, line, column, meaning, node.parts)
}

/// The tree of the one program that the tokens spell within the rules, or the first breach of a rule: at the first byte
/// of a token, or at the source's length. `number` is the source's number in its plan, and `room`, at most 65,536,
/// the number of nodes that may still be made.
pub fn parse(
    alloc: Global,
    source: &Source,
    number: u32,
    tokens: &Tokens,
    room: u32,
) -> Result<Tree, Stop<Refusal>>
    requires tokens { InOrder 0 (length source.now.bytes) tokens.now }
    requires few { room ≤ 65536 }
    ensures spelled { IfOk result (IsTreeOf room source.now.bytes tokens.now number) }
    ensures refused { IfErr result (StopsFor room source.now.bytes tokens.now) }
{
    // For the contract: `bytes` says that a source has at most 1,048,576 bytes, all of them UTF-8.
    let _ = source.bytes();
    let nodes = match parts_of(alloc, source, tokens, room) {
        Ok(nodes) => nodes,
        Err(stop) => return Err(stop),
    };
    let mut builder = Builder::new(alloc);
    let mut scope = Scope::new(alloc);
    for node in &nodes {
        add(
            alloc,
            &mut builder,
            &mut scope,
            source,
            number,
            tokens,
            node,
        )?;
    }
    Ok(builder.finish())
}
