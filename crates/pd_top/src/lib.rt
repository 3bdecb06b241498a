//! The top call: from the words of a command to the bytes that it writes.
#![tactic(auto)]

mod accepting;
mod files;
mod loading;
mod outcome;
mod plans;
mod top;

pub use outcome::{Outcome, Unwritten};
pub use pd_load::{LoadCause, LoadRefusal};
pub use pd_words::{BindingWords, Command, RunWords, WordFault};
pub use top::run;
