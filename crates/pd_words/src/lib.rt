//! The words of commands: the first one names the command, and the command's own are read by `clap`.
#![tactic(auto)]

mod asked;
mod commands;
mod fuel;
mod matching;
mod words;

pub use asked::{BindingWords, Command, RunWords, WordFault};
pub use fuel::with_fuel;
pub use words::read_words;
