//! Events, and what a watcher may answer to one.
use pd_values::{Fault, NodeId, Value};

/// Why an activation ended without a value.
#[derive(Clone, Copy, Drop)]
pub enum Cause {
    /// A `return` on its way to the body that takes it.
    Returning,
    /// A `break` on its way to the loop that takes it.
    Breaking,
    /// A `continue` on its way to the loop that takes it.
    Continuing,
    /// A fault, which ends the run.
    Faulting(Fault),
    /// A verdict on its way to a frame that is entered again or gives another value.
    Unwinding,
}

/// What happens to an activation, which is one evaluation of a node with tags.
#[derive(Drop)]
pub enum EventKind {
    /// It begins.
    Enter,
    /// It ends with this value.
    Return(Value),
    /// It ends without a value.
    Leave(Cause),
}

/// An event of a run: its number from 0, what happens at which node, the number of the Enter of the
/// same activation, and the number of live frames.
#[derive(Drop)]
pub struct Event {
    pub number: u32,
    pub kind: EventKind,
    pub node: NodeId,
    pub opened: u32,
    pub depth: u32,
}

/// What a watcher answers to an event. Frames count from the innermost, which is 0; a number past the outermost means
/// the outermost.
#[derive(Drop)]
pub enum Verdict {
    /// The run goes on.
    Go,
    /// The frame of this number is entered again.
    Reenter(u32),
    /// The call of the frame of this number gives this value.
    Return(u32, Value),
    /// The run ends.
    Kill,
}
