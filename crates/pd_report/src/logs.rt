//! The log of a binding over all contexts.
ghost use Rattle.std.specs.Prelude.{◌≡◌, [], IfOk, slice_index_or};
ghost use Rattle.pd_log.specs.Merging.{entries_in, PlacesDiffer};
ghost use Rattle.pd_report.specs.Logs.{entries_of, by_place};

use pd_log::{Entry, merge};
use pd_machine::EventKind;
use pd_suspend::ContextRecord;
use std::alloc::{AllocError, Global};

/// The log of a binding in a context.
pub(crate) fn log_in(context: &ContextRecord, binding: usize) -> &[Entry]
    ensures { result.now ≡ slice_index_or context.now.logs binding [] }
{
    match context.logs.get(binding) {
        Some(log) => log.as_slice(),
        None => &[],
    }
}

fn copy_kind(kind: &EventKind) -> Result<EventKind, AllocError>
    ensures { IfOk result (λ copy. copy ≡ kind.now) }
{
    Ok(match kind {
        EventKind::Enter => EventKind::Enter,
        EventKind::Return(value) => EventKind::Return(value.copy()?),
        EventKind::Leave(cause) => EventKind::Leave(*cause),
    })
}

fn copy_entry(entry: &Entry) -> Result<Entry, AllocError>
    ensures { IfOk result (λ copy. copy ≡ entry.now) }
{
    Ok(Entry {
        context: entry.context,
        event: entry.event,
        opened: entry.opened,
        place: entry.place,
        kind: copy_kind(&entry.kind)?,
        node: entry.node,
    })
}

fn copy_log(alloc: Global, log: &[Entry]) -> Result<Vec<Entry>, AllocError>
    ensures { IfOk result (λ copy. copy.items ≡ log.now) }
{
    let mut copy = Vec::new(alloc);
    for entry in log {
        copy.push(copy_entry(entry)?)?;
    }
    Ok(copy)
}

fn copy_logs(
    alloc: Global,
    contexts: &[ContextRecord],
    binding: usize,
) -> Result<Vec<Vec<Entry>>, AllocError>
    ensures { IfOk result (λ logs. entries_in logs.items ≡ entries_of binding contexts.now) }
{
    let mut logs = Vec::new(alloc);
    for context in contexts {
        logs.push(copy_log(alloc, log_in(context, binding))?)?;
    }
    Ok(logs)
}

/// The entries of a binding in all contexts, in the order of their places. Condition: no two have one place.
pub(crate) fn merged_log(
    alloc: Global,
    contexts: &[ContextRecord],
    binding: usize,
) -> Result<Vec<Entry>, AllocError>
    requires { PlacesDiffer (entries_of binding contexts.now) }
    ensures { IfOk result (λ log. log.items ≡ by_place (entries_of binding contexts.now)) }
{
    let logs = copy_logs(alloc, contexts, binding)?;
    let merged = merge(alloc, logs)?;
    Ok(merged)
}
