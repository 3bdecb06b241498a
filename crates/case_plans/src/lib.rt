//! Plans for case programs: a plan's file with the sources that lie beside it, as a plan and its program.
#![tactic(auto)]

mod loading;

pub use loading::{Loaded, load_files};
