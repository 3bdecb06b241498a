//! What nodes of both languages do: calls of `println`, SL functions and PL/0 procedures from either language,
//! names, and operators.
#![tactic(auto)]

mod arguments;
mod calls;
mod items;
mod names;
mod operators;

pub use arguments::{filled, first_variables};
pub use calls::{call, frame_for, write};
pub use items::{level_of, root_of, slots_of, source_of};
pub use names::{assign, read};
pub use operators::{answer, operate};
