//! Where a node stands in a program.
ghost use Rattle.std.specs.Prelude.{◌≡◌, ◌+◌, ◌≤◌, length, take, drop};

use crate::kind::Meaning;
use pd_values::NodeId;

/// A stretch of a list: `len` items from item `from` on.
#[derive(Clone, Copy, Drop)]
pub struct Span {
    pub from: usize,
    pub len: usize,
}

/// What a program keeps of a node beside its addition.
#[derive(Drop)]
pub struct Place {
    /// Its parts, a stretch of the program's parts.
    pub parts: Span,
    /// The number of the list of variables that it sees; a procedure sees those of the list that its inner procedures
    /// don't hide.
    pub sees: usize,
    pub meaning: Meaning,
    /// Whether it stands as a statement or as a condition.
    pub stands: bool,
    pub root: NodeId,
    pub level: u32,
    pub slots: u32,
}

/// The items of a stretch.
pub fn stretch<T>(items: &[T], span: Span) -> &[T]
    requires { span.from + span.len ≤ length items.now }
    ensures { result.now ≡ take span.len (drop span.from items.now) }
{
    &items[span.from..][..span.len]
}
