//! Reading the tokens of a source.
ghost use Rattle.std.specs.Prelude.{◌≡◌, length, IfOk, IfErr};
ghost use Rattle.pd_sections.specs.Lexing.{InOrder};
ghost use Rattle.pd_pl0_read.specs.Answers.{AreNodesOf, AreNodesBehind, StopsFor};

use crate::parts::Part;
use crate::reader::Reader;
use crate::tokens::{name_of, word_of};
use pd_sections::{Refusal, Rule, Source, Stop, Tokens};
use pd_turn::{Node, before};
use std::alloc::Global;

/// The nodes of the one tree that the tokens spell, each after its parts.
fn nodes_of(
    alloc: Global,
    source: &Source,
    tokens: &Tokens,
    room: u32,
) -> Result<Vec<Node<Part>>, Stop<Refusal>>
    requires { InOrder 0 (length source.now.bytes) tokens.now }
    ensures spelled { IfOk result (λ nodes. AreNodesBehind room source.now.bytes tokens.now nodes.items) }
    ensures refused { IfErr result (StopsFor room source.now.bytes tokens.now) }
{
    let end = source.bytes().len() as u32;
    let mut reader = Reader::new(alloc)?;
    for at in 0..tokens.len() {
        let token = tokens.get(at);
        let word = word_of(source, token);
        let name = name_of(source, token);
        if let Some(rule) = reader.take_within(alloc, at, word, name)? {
            let at = token.start;
            return Err(Stop::Refused(Refusal { rule, at }));
        }
    }
    let Some(nodes) = reader.finish() else {
        let rule = Rule::Unexpected;
        return Err(Stop::Refused(Refusal { rule, at: end }));
    };
    if nodes.len() > room as usize {
        let rule = Rule::TooManyNodes;
        return Err(Stop::Refused(Refusal { rule, at: end }));
    }
    Ok(nodes)
}

/// The nodes of the one tree that the tokens spell within the rules, each before its parts, or the first breach of a
/// rule: at the first byte of a token, or at the source's length. `room` is the number of nodes that may still be made.
/// Memory may run out at any point: then `Stop::Memory`.
pub fn parts_of(
    alloc: Global,
    source: &Source,
    tokens: &Tokens,
    room: u32,
) -> Result<Vec<Node<Part>>, Stop<Refusal>>
    requires { InOrder 0 (length source.now.bytes) tokens.now }
    ensures spelled { IfOk result (λ nodes. AreNodesOf room source.now.bytes tokens.now nodes.items) }
    ensures refused { IfErr result (StopsFor room source.now.bytes tokens.now) }
{
    match nodes_of(alloc, source, tokens, room) {
        Ok(nodes) => Ok(before(alloc, nodes)?),
        Err(stop) => Err(stop),
    }
}
