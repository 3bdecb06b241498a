//! The state of one run, the moves of which its turns are made, and the events that it tells.
#![tactic(auto)]

mod event;
mod machine;
mod run;
mod scene;

pub use event::{Cause, Event, EventKind, Verdict};
pub use machine::{MOST_FRAMES, Machine, Turn};
pub use run::{Cutoff, Frame, Home, Mode, NodeResult, Pending};
pub use scene::Scene;
