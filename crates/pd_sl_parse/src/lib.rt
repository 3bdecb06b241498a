//! The parser of SL: the tree of a source, or the first breach of a rule.
#![tactic(auto)]

mod build;
mod kinds;
mod scope;
mod texts;

pub use build::parse;
pub use scope::{Scope, Variable};
pub use texts::{one_tree_law, texts_law};
