//! The evaluator: turns of the machine, and runs under a watcher.
#![tactic(auto)]

mod entering;
mod heard;
mod opening;
mod results;
mod running;
mod starting;
mod turning;
mod watching;

pub use heard::Heard;
pub use running::{Ran, run};
pub use turning::turn;
pub use watching::Watcher;
