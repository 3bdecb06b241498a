//! What a session was answered.

use pd_board::{ActResult, Waited};
use pd_values::Items;

/// What an action gave: an act its answer; a wait for so many answers how it ended.
#[derive(Clone, Copy, Debug, Drop, PartialEq, Eq)]
pub enum ActionResult {
    Act(ActResult),
    Awaited(u32, Waited),
}

/// What a session was answered: to the attaches of its list `before`, and to the actions of its script, each in order.
#[derive(Drop)]
pub struct SessionRecord {
    pub before: Items<ActResult>,
    pub actions: Items<ActionResult>,
}
