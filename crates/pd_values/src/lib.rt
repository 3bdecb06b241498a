//! The values of both guest languages, the faults and ends of a run, and the operators.
#![tactic(auto)]

mod items;
mod operators;
mod stop;
mod text;
mod value;

pub use items::Items;
pub use operators::{add, compare, div, equal, minus, mul, odd, plus, show, sub};
pub use stop::Stop;
pub use text::Text;
pub use value::{Cmp, End, Fault, NodeId, Tag, Value};
