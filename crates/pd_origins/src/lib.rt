//! Which event gave a variable its value: definitions over the events of a run, and a ledger that reads it from a log.
#![tactic(auto)]

mod ledger;
mod nodes;

ghost use Rattle.pd_origins.specs.Laws.{LedgersTell, WritesAreShown};

pub use ledger::Ledger;

/// Where the value of a variable comes from.
#[derive(Clone, Copy, Debug, Drop, PartialEq, Eq)]
pub enum Origin {
    /// The assignment that gave it ended at this event.
    By { event: u32 },
    /// No assignment did since its function or procedure was entered, at this event.
    Start { event: u32 },
    /// No assignment did since the context began.
    Initial,
}

/// The ledger over the log of all functions, procedures and assignments has at each event the origins of the variables
/// that the frames show there.
///
/// And in a run of a program where the root of each item has its tag, no part that is run is a function or procedure, and
/// assignments and their right sides tell their ends: at each event but the Return of an assignment, where the last write of
/// a variable that is seen ended at an event, the event before that one is the Return of its right side, with the value that
/// is seen.
pub fn origins_law()
    ensures ledgers { LedgersTell }
    ensures shown { WritesAreShown }
{}
