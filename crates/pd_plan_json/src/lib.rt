//! Plans read from JSON.
#![tactic(auto)]

mod bindings;
mod members;
mod program;
mod reader;
mod references;
mod sessions;
mod shapes;
mod tables;
mod whole;

pub use whole::read_plan;
