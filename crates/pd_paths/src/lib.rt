//! The paths of calls of a run, counted over the log of its functions and procedures.
#![tactic(auto)]

mod counter;
mod counting;
mod order;
mod text;

ghost use Rattle.pd_paths.specs.Laws.{TalliesAreTrees, SumsAreWhole};

pub use counting::counted;
use pd_values::{Items, NodeId};
pub use text::push_tree;

/// A path of functions and procedures, the outermost first: how many activations have it, and how many events belong to
/// them.
#[derive(Drop)]
pub struct PathCount {
    pub path: Items<NodeId>,
    pub count: u32,
    pub own: u32,
}

/// What is counted over the log of all events of functions and procedures is the call tree of the events, and where one of
/// them runs at each event, its numbers add up.
pub fn paths_law()
    ensures trees { TalliesAreTrees }
    ensures sums { SumsAreWhole }
{}
