//! The counts over a log.
ghost use Rattle.std.specs.Prelude.{map, IfOk};
ghost use Rattle.pd_running.specs.Running.{mark_in};
ghost use Rattle.pd_paths.specs.Tally.{AreRising, IsTally};
ghost use Rattle.pd_paths.specs.Counting.{IsStanding};

use crate::PathCount;
use crate::counter::Counter;
use crate::order::compare;
use pd_log::Entry;
use pd_values::Items;
use std::alloc::{AllocError, Global};

/// Each path of calls in the log of all events of functions and procedures of a run, with the number of its activations
/// and of the events that belong to them, out of so many `events`; in the order of the paths.
///
/// It takes time by the length of the log and of the paths together. Where memory runs out it answers `AllocError`.
pub fn counted(alloc: Global, log: &[Entry], events: u32) -> Result<Items<PathCount>, AllocError>
    requires { AreRising 0 events (map mark_in log.now) }
    ensures { IfOk result (IsTally events (map mark_in log.now)) }
{
    let mut counter = Counter::new(alloc)?;
    for entry in log {
        counter.pass(alloc, entry)?;
    }
    counter.count_to(events);
    let mut paths = counter.paths;
    paths.remove(0);
    paths.sort_unstable_by(|a, b| compare(a.path.as_slice(), b.path.as_slice()));
    Ok(Items::of(paths))
}
