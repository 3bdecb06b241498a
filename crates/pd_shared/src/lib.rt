//! The shared words as a board: many threads step on them, each with a seat of its own.
#![tactic(auto)]

mod close;
mod laws;
mod matching;
mod merge;
mod replies;
mod seat;
mod shared;
mod sights;
mod steps;
mod token;

pub use close::Tally;
pub use laws::steps_are_counted;
pub use pd_board::{BindingTally, State};
pub use seat::Seat;
pub use shared::SharedBoard;
pub use sights::Sights;
pub use token::Token;
