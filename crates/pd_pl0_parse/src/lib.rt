//! The parser of PL/0: the tree of a source, or the first breach of a rule.
#![tactic(auto)]

mod build;
mod kinds;
mod texts;

pub use build::parse;
pub use texts::one_tree_law;
