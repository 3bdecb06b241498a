//! The trees of the sources.
ghost use Rattle.std.specs.Prelude.{◌≡◌, ◌≤◌, length, IfOk, IfErr, OnOk};
ghost use Rattle.std.specs.List.{AllByRecursion};
ghost use Rattle.std.specs.Str.{IsUtf8};
ghost use Rattle.pd_tree.specs.Linked.{joined};
ghost use Rattle.pd_plan.specs.declared.plan.Language.TheVariants.{Sl, Pl0};
ghost use Rattle.pd_load.specs.Loading.{IsTree, AreTrees, most_nodes};
ghost use Rattle.pd_load.specs.Tables.{IsText, StopsReading, StopsSpelling, at_source};

use crate::refusal::{LoadCause, LoadRefusal};
use pd_plan::{Language, SourceSpec};
use pd_sections::{Refusal, Source, Stop};
use pd_tree::Tree;
use std::alloc::Global;

/// How many nodes all sources together may have.
const MOST_NODES: u32 = 65_536;

fn sl_tree_of(alloc: Global, source: &Source, number: u32, room: u32) -> Result<Tree, Stop<Refusal>>
    requires { room ≤ 65536 }
    ensures spelled { IfOk result (IsTree Sl room number source.now.bytes) }
    ensures text { IsUtf8 source.now.bytes }
    ensures refused { IfErr result (StopsReading Sl room source.now.bytes) }
{
    // For the contract: `bytes` says that a source's bytes are UTF-8, which the clause `text` promises.
    let _ = source.bytes();
    let tokens = pd_sl_lex::lex(alloc, source)?;
    pd_sl_parse::parse(alloc, source, number, &tokens, room)
}

fn pl0_tree_of(
    alloc: Global,
    source: &Source,
    number: u32,
    room: u32,
) -> Result<Tree, Stop<Refusal>>
    requires { room ≤ 65536 }
    ensures spelled { IfOk result (IsTree Pl0 room number source.now.bytes) }
    ensures text { IsUtf8 source.now.bytes }
    ensures refused { IfErr result (StopsReading Pl0 room source.now.bytes) }
{
    // For the contract: `bytes` says that a source's bytes are UTF-8, which the clause `text` promises.
    let _ = source.bytes();
    let tokens = pd_pl0_lex::lex(alloc, source)?;
    pd_pl0_parse::parse(alloc, source, number, &tokens, room)
}

/// The tree of the source `number`, which may have `room` nodes, at most 65,536.
fn tree_of(
    alloc: Global,
    language: Language,
    source: &Source,
    number: u32,
    room: u32,
) -> Result<Tree, Stop<Refusal>>
    requires { room ≤ 65536 }
    ensures spelled { IfOk result (IsTree language room number source.now.bytes) }
    ensures text { IsUtf8 source.now.bytes }
    ensures refused { IfErr result (StopsReading language room source.now.bytes) }
{
    match language {
        Language::Sl => sl_tree_of(alloc, source, number, room),
        Language::Pl0 => pl0_tree_of(alloc, source, number, room),
    }
}

/// The same stop, as one of the source `number`.
fn at_source(number: u32, stop: Stop<Refusal>) -> Stop<LoadRefusal>
    ensures { result ≡ at_source number stop }
{
    match stop {
        Stop::Refused(breach) => Stop::Refused(LoadRefusal {
            source: number,
            cause: LoadCause::Spelling(breach),
        }),
        Stop::Memory => Stop::Memory,
    }
}

/// The tree of each source, or the first one that is refused.
pub fn trees_of(
    alloc: Global,
    specs: &[SourceSpec],
    sources: &[Source],
) -> Result<Vec<Tree>, Stop<LoadRefusal>>
    requires each { length sources.now ≡ length specs.now }
    requires few { length specs.now ≤ 16 }
    ensures spelled { IfOk result (λ trees. AreTrees 0 most_nodes specs.now sources.now trees.items) }
    ensures texts { OnOk result (AllByRecursion IsText sources.now) }
    ensures counted { IfOk result (λ trees. length trees.items ≡ length specs.now) }
    ensures fits { IfOk result (λ trees. length (joined trees.items) ≤ 65536) }
    ensures refused { IfErr result (StopsSpelling specs.now sources.now) }
{
    let mut trees = Vec::new(alloc);
    let mut room = MOST_NODES;
    for (index, source) in sources.iter().enumerate() {
        let number = index as u32;
        let tree = match tree_of(alloc, specs[index].language, source, number, room) {
            Ok(tree) => tree,
            Err(stop) => return Err(at_source(number, stop)),
        };
        room -= tree.additions().len() as u32;
        trees.push(tree)?;
    }
    Ok(trees)
}
