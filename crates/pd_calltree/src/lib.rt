//! The call tree of a plan's run: how often each path of calls was taken, and how many events belong to it.
#![tactic(auto)]

mod steady;
mod suits;
mod text;
mod trees;

pub use pd_paths::PathCount;
pub use suits::is_for_tree;
pub use text::calltree_text;
pub use trees::{CallTree, tree};
