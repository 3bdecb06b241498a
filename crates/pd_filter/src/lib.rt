//! Which nodes satisfy a filter, and which nodes each binding of a plan is about.
#![tactic(auto)]

mod matching;
mod satisfying;

pub use matching::{concerns, is_drawn_always, matches};
pub use satisfying::sat;
