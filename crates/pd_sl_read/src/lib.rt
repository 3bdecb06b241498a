//! Reading SL: the nodes of the one tree that spells the tokens of a source, or the first breach of a rule.
#![tactic(auto)]

mod parts;
mod read;
mod reader;
mod tokens;

pub use parts::{Block, Frame, Head, Keyword, Level, Levels, Mode, Part, Shape, Word};
pub use read::parts_of;
pub use reader::Reader;
pub use tokens::word_of;
