//! The changes of what is seen from node to node.

/// Behind which byte of a node what is seen changes.
#[derive(Clone, Copy, Drop)]
pub enum Edge {
    /// Behind its first byte: a function's parameters or a procedure's variables begin.
    First,
    /// Behind its last byte: an assignment's variable begins, or a procedure's name hides a variable.
    Last,
}

/// A change of what is seen. The variables that are seen make lists with numbers: list 0 is empty, and the change with
/// the number k, from 0, makes list k + 1 of an earlier one.
#[derive(Clone, Copy, Drop)]
pub struct Change {
    pub edge: Edge,
    pub node: u32,
    /// The number of the list that it changes.
    pub before: usize,
}
