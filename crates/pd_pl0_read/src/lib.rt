//! Reading PL/0: the nodes of the one tree that spells the tokens of a source, with what their names mean, or the first breach of a rule.
#![tactic(auto)]

mod names;
mod parts;
mod read;
mod reader;
mod tokens;

pub use names::{Declared, Found, Names};
pub use parts::{Before, Block, Frame, Keyword, Levels, Mode, Part, Purpose, Shape, Word};
pub use read::parts_of;
pub use reader::Reader;
pub use tokens::{name_of, word_of};
