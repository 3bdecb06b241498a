//! Coverage: which statements a run entered, and on which lines, by the log of an observer.
#![tactic(auto)]

mod covering;
mod lines;
mod statements;
mod table;
mod text;

pub use covering::{cover, watches};
use pd_values::{Items, NodeId};
pub use text::coverage_text;

/// Of a source, by its number, the statements that an observer is about, and those of them that it saw entered; both
/// rising.
#[derive(Drop)]
pub struct Covered {
    pub source: u32,
    pub nodes: Items<NodeId>,
    pub hit: Items<NodeId>,
}

/// For each context what was hit in it, source by source; and for each source what was hit in any context.
#[derive(Drop)]
pub struct Coverage {
    pub contexts: Items<Items<Covered>>,
    pub all: Items<Covered>,
}
