//! The sources of a plan, read and linked into one program, or the first refusal.
#![tactic(auto)]

mod exports;
mod found;
mod loading;
mod names;
mod refusal;
mod scope;
mod sources;

pub use loading::load;
pub use refusal::{LoadCause, LoadRefusal};
