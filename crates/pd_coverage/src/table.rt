//! Truth values by number.
ghost use Rattle.std.specs.Prelude.{◌≡◌, false, replicate, IfOk};
ghost use Rattle.pd_running.specs.Running.{is_enter};
ghost use Rattle.pd_coverage.specs.Coverage.{is_hit};
ghost use Rattle.pd_coverage.specs.Table.{is_marked, IsMarked};

use pd_log::Entry;
use pd_machine::EventKind;
use pd_values::Items;
use std::alloc::{AllocError, Global};

/// A table of so many numbers, none of which is marked.
pub(crate) fn blank(alloc: Global, count: usize) -> Result<Items<bool>, AllocError>
    ensures { IfOk result (λ table. table ≡ replicate count false) }
{
    Ok(Items::of(vec![in alloc; false; count]?))
}

/// Whether a number is marked.
pub(crate) fn is_marked(table: &Items<bool>, n: usize) -> bool
    ensures { result ≡ is_marked table.now n }
{
    match table.get(n) {
        Some(marked) => *marked,
        None => false,
    }
}

// Whether an activation begins.
fn begins(entry: &Entry) -> bool
    ensures { result ≡ is_enter entry.now.kind }
{
    matches!(entry.kind, EventKind::Enter)
}

/// Marks in both tables the nodes whose Enter the log has.
pub(crate) fn mark_entered(log: &[Entry], own: &mut Items<bool>, all: &mut Items<bool>)
    ensures own { IsMarked (is_hit log.now) own.old own.new }
    ensures all { IsMarked (is_hit log.now) all.old all.new }
{
    for entry in log {
        if begins(entry) {
            own.set(entry.node.0 as usize, true);
            all.set(entry.node.0 as usize, true);
        }
    }
}
