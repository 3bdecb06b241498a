//! A workload that is generated from a number: its plan, its sources, and what is told of its run.
#![tactic(auto)]

mod lines;
mod lists;
mod made;
mod plan;
mod sources;
mod summing;
mod telling;
mod told;

pub use made::{Generated, make};
pub use summing::summary;
pub use telling::summary_text;
pub use told::Summary;
