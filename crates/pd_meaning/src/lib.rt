//! The meaning of programs: the definition, a pure machine, and the laws that tie the two.
#![tactic(auto)]

mod reader;

pub use reader::{fuel_law, machine_law};
