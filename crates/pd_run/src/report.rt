//! The report of a plan's run.
use pd_session::SessionRecord;
use pd_shared::{Sights, Tally};
use pd_suspend::ContextRecord;
use pd_values::Items;

/// What contexts and sessions did, what their seats left, and how the bindings and sessions ended up.
#[derive(Drop)]
pub struct Report {
    pub contexts: Items<ContextRecord>,
    pub sessions: Items<SessionRecord>,
    /// What the seat of each context left.
    pub sights: Items<Sights>,
    /// What the seat of each session left.
    pub scripts: Items<Sights>,
    pub tally: Tally,
}
