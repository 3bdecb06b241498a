//! What a program says of an item and of a root. A number that the program doesn't have reads as that of no
//! item or no node.
ghost use Rattle.std.specs.Prelude.{◌≡◌, ◌<◌, length, option_map};
ghost use Rattle.pd_tree.specs.Program.{item_at, node_at};
ghost use Rattle.pd_cross.specs.Parameters.{parameters_of};

use pd_tree::{Kind, Program};
use pd_values::{NodeId, Text};

/// The root of an item.
#[tactic(auto, using(std::proofs::lemmas::List::get_or_past))]
pub fn root_of(program: &Program, item: u32) -> Option<NodeId>
    ensures { result ≡ (item_at program.now item).root }
{
    if (item as usize) < program.names().len() {
        program.root_of(item)
    } else {
        None
    }
}

/// The number of variables of a root.
#[tactic(auto, using(std::proofs::lemmas::List::get_or_past))]
pub fn slots_of(program: &Program, root: NodeId) -> u32
    ensures { result ≡ (node_at program.now root).slots }
{
    if root.0 < program.nodes() {
        program.slots(root)
    } else {
        0
    }
}

/// How many procedures stand around a root.
#[tactic(auto, using(std::proofs::lemmas::List::get_or_past))]
pub fn level_of(program: &Program, root: NodeId) -> u32
    ensures { result ≡ (node_at program.now root).level }
{
    if root.0 < program.nodes() {
        program.level(root)
    } else {
        0
    }
}

/// The source of a root.
#[tactic(auto, using(std::proofs::lemmas::List::get_or_past))]
pub fn source_of(program: &Program, root: NodeId) -> u32
    ensures { result ≡ (node_at program.now root).source }
{
    if root.0 < program.nodes() {
        program.section(root).source
    } else {
        0
    }
}

/// The names of the parameters of an SL function; nothing for another root.
#[tactic(auto, using(std::proofs::lemmas::List::get_or_past))]
pub fn parameters_of(program: &Program, root: NodeId) -> Option<&[Text]>
    ensures { option_map (λ r. r.now) result ≡ parameters_of (node_at program.now root).kind }
{
    if root.0 >= program.nodes() {
        return None;
    }
    match program.kind(root) {
        Kind::SlFunction {
            name: _,
            parameters,
        } => Some(parameters.as_slice()),
        _ => None,
    }
}
