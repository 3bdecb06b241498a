//! The nodes of programs in both guest languages.
#![tactic(auto)]

mod addition;
mod builder;
mod change;
mod kind;
mod place;
mod program;
mod seen;
mod tags;

pub use addition::Addition;
pub use builder::{Builder, Tree};
pub use change::{Change, Edge};
pub use kind::{Kind, Meaning, Operator, Visible};
pub use place::{Place, Span, stretch};
pub use program::{Lists, Program};
pub use seen::parameters_seen;
