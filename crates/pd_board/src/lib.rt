//! What a context needs of the bindings that it delivers to: the trait `Board`, and the board of one thread.
#![tactic(auto)]

mod answers;
mod bits;
mod board;
mod chain;
mod journal;
mod life;
mod plain;
mod session;
mod waiting;

pub use answers::{
    ActResult, Attach, BindingTally, Dispose, Drawn, Known, Passed, Sight, State, Tally, Toggle,
};
pub use board::Board;
pub use chain::Chain;
pub use journal::Journal;
pub use plain::PlainBoard;
pub use waiting::{Waited, await_answers};
