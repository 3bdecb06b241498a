//! Which nodes each binding of a plan is about, by lists of the nodes of each tag and of each line.
#![tactic(auto)]

mod candidates;
mod index;
mod lines;
mod matching;

pub use index::NodeIndex;
pub use matching::matches;
