//! What the ledger asks of nodes; a number past the last node has no tag, and its name means nothing.
ghost use Rattle.std.specs.Prelude.{◌≡◌};
ghost use Rattle.pd_meaning.specs.Meaning.{is_main_block};
ghost use Rattle.pd_tree.specs.Program.{node_at, has_tag};

use pd_tree::{Kind, Meaning, Program};
use pd_values::{NodeId, Tag};

/// Whether a node has a tag.
#[tactic(auto, using(std::proofs::lemmas::List::get_or_past))]
pub(crate) fn has(program: &Program, n: NodeId, tag: Tag) -> bool
    ensures { result ≡ has_tag (node_at program.now n).tags tag }
{
    if n.0 < program.nodes() {
        program.has(n, tag)
    } else {
        false
    }
}

/// What a node's name means.
#[tactic(auto, using(std::proofs::lemmas::List::get_or_past))]
pub(crate) fn meaning_of(program: &Program, n: NodeId) -> Meaning
    ensures { result ≡ (node_at program.now n).meaning }
{
    if n.0 < program.nodes() {
        program.meaning(n)
    } else {
        Meaning::Nothing
    }
}

/// How many procedures stand around a function or procedure.
#[tactic(auto, using(std::proofs::lemmas::List::get_or_past))]
pub(crate) fn level_of(program: &Program, root: NodeId) -> u32
    ensures { result ≡ (node_at program.now root).level }
{
    if root.0 < program.nodes() {
        program.level(root)
    } else {
        0
    }
}

/// The source of a node.
#[tactic(auto, using(std::proofs::lemmas::List::get_or_past))]
pub(crate) fn source_of(program: &Program, n: NodeId) -> u32
    ensures { result ≡ (node_at program.now n).source }
{
    if n.0 < program.nodes() {
        program.section(n).source
    } else {
        0
    }
}

/// Whether a node is a procedure or a main block.
fn is_procedure(kind: &Kind) -> bool
    ensures { result ≡ is_main_block kind.now 0 }
{
    matches!(kind, Kind::PlProcedure { .. })
}

/// Whether a node is a main block.
#[tactic(auto, using(std::proofs::lemmas::List::get_or_past))]
pub(crate) fn is_main(program: &Program, n: NodeId) -> bool
    ensures { result ≡ is_main_block (node_at program.now n).kind (node_at program.now n).level }
{
    if n.0 < program.nodes() {
        program.level(n) == 0 && is_procedure(program.kind(n))
    } else {
        false
    }
}
