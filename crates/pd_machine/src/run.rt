//! What a run is made of: results of nodes, frames, and what waits on the machine's stack.
ghost use Rattle.std.specs.Prelude.{◌≡◌, IfOk};

use pd_values::{Fault, Items, NodeId, Value};
use std::alloc::{AllocError, Global};

/// What stops a run before its end.
#[derive(Clone, Copy, Drop)]
pub enum Cutoff {
    /// A node was to be entered, and no fuel was left.
    SpentFuel,
    /// A verdict killed the run.
    WasKilled,
}

/// What a node comes to.
#[derive(Drop)]
pub enum NodeResult {
    /// Its value.
    Gives(Value),
    /// A `return` of this value, for the body around it.
    Returns(Value),
    /// A `break`, for the loop around it.
    Breaks,
    /// A `continue`, for the loop around it.
    Continues,
    /// This fault, which happened at this node.
    Faults(Fault, NodeId),
    /// To the frame of this number, where 0 is the outermost: it is entered again, or its call gives the value.
    Unwinds(u32, Option<Value>),
    /// The run stops.
    Stops(Cutoff),
}

/// Where the variables of a block stand: in the frame of this number, where 0 is the outermost, or
/// in the main block of this source.
#[derive(Clone, Copy, Drop)]
pub enum Home {
    InFrame(u32),
    InMain(u32),
}

/// A live call: the function or procedure, the call node where it waits for the next frame, its
/// variables by slot (those of a main block stand in the context), and for each block that it sees,
/// from its own outward, where the variables stand.
#[derive(Drop)]
pub struct Frame {
    pub root: NodeId,
    pub at: NodeId,
    pub variables: Items<Value>,
    pub blocks: Items<Home>,
}

/// What waits for the result of a node.
#[derive(Drop)]
pub enum Pending {
    /// An open activation of a node with tags, and the number of its Enter.
    Leaving(NodeId, u32),
    /// A node with the values of its parts so far, and the place of the part after the one that runs.
    Operand(NodeId, Items<Value>, usize),
    /// An SL body, which takes a return.
    Catching,
    /// An `if` whose condition runs, with its block, or with both its blocks.
    Choosing(NodeId, NodeId),
    ChoosingBetween(NodeId, NodeId, NodeId),
    /// A `while` whose condition runs, and one whose block runs: the node, the condition, the block.
    Testing(NodeId, NodeId, NodeId),
    Turning(NodeId, NodeId, NodeId),
    /// An `||` (at true) or `&&` (at false) whose left side runs, with its right side, and one whose
    /// right side runs.
    LeftSide(bool, NodeId, NodeId),
    RightSide(NodeId),
    /// A call: the number of its frame, and the frame as it began.
    InCall(u32, Frame),
    /// A PL/0 call, which drops the result.
    Dropping,
}

/// What is done next.
#[derive(Drop)]
pub enum Mode {
    /// The node is to be entered.
    Entering(NodeId),
    /// The node was entered, and is to do its work.
    Starting(NodeId),
    /// The result goes to what waits for it.
    Coming(NodeResult),
}

impl Frame {
    /// A second frame with the same content.
    pub fn copy(&self, alloc: Global) -> Result<Frame, AllocError>
        ensures { IfOk result (λ f. f ≡ self.now) }
    {
        Ok(Frame {
            root: self.root,
            at: self.at,
            variables: copied(alloc, self.variables.as_slice())?,
            blocks: Items::of(Vec::from_slice(alloc, self.blocks.as_slice())?),
        })
    }
}

/// Second values with the same content.
fn copied(alloc: Global, values: &[Value]) -> Result<Items<Value>, AllocError>
    ensures { IfOk result (λ xs. xs ≡ values.now) }
{
    let mut copies = Vec::with_capacity(alloc, values.len())?;
    for value in values {
        copies.push(value.copy()?)?;
    }
    Ok(Items::of(copies))
}
