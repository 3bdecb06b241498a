//! The log of each observer in each context, beside the one of an observer that was attached all along.
use crate::contexts::ONE_SHOT;
use crate::fault::Fault;
use crate::numbers::{Taken, rise, taken_in};
use pd_board::{ActResult, State};
use pd_log::Entry;
use pd_machine::EventKind;
use pd_run::Report;
use pd_suspend::ContextRecord;
use pd_values::Value;
use std::alloc::Global;

/// Whether both are the same number, truth value or NULL.
fn is_same_value(one: &Value, other: &Value) -> bool {
    match (one, other) {
        (Value::Number(a), Value::Number(b)) => *a == *b,
        (Value::Bool(a), Value::Bool(b)) => *a == *b,
        (Value::Null, Value::Null) => true,
        _ => false,
    }
}

fn is_same_kind(one: &EventKind, other: &EventKind) -> bool {
    match (one, other) {
        (EventKind::Enter, EventKind::Enter) => true,
        (EventKind::Return(a), EventKind::Return(b)) => is_same_value(a, b),
        _ => false,
    }
}

/// Whether both tell of the same event.
fn is_same_event(one: &Entry, other: &Entry) -> bool {
    one.event == other.event
        && one.opened == other.opened
        && one.node.0 == other.node.0
        && is_same_kind(&one.kind, &other.kind)
}

/// Whether both tell of the same events.
fn are_same_events(log: &[Entry], other: &[Entry]) -> bool {
    log.len() == other.len() && log.iter().zip(other).all(|(a, b)| is_same_event(a, b))
}

fn has_event(log: &[Entry], event: u32) -> bool {
    log.iter().any(|e| e.event == event)
}

/// Whether the log has just the places that were taken, in order, each of an event that the whole log has.
fn is_log_of(log: &[Entry], context: usize, taken: &[Taken], whole: &[Entry]) -> bool {
    let places = taken.iter().filter(|t| t.on);
    let count = taken.iter().filter(|t| t.on).count();
    log.len() == count
        && places
            .zip(log)
            .all(|(t, e)| t.event == e.event && t.number == e.place)
        && log.iter().all(|e| e.context as usize == context
            && whole.iter().any(|w| is_same_event(e, w)))
}

/// Whether the binding is to be given the event where it is observed: a beginning, or the end of what it saw begin.
fn is_subject(entry: &Entry, log: &[Entry]) -> bool {
    matches!(&entry.kind, EventKind::Enter) || has_event(log, entry.opened)
}

/// Which events a binding may not be passed over at: from one to another, both included.
#[derive(Clone, Copy, Drop)]
struct Span {
    from: u32,
    to: u32,
}

/// From the start where a session attached the binding before the run, else from the first number that was taken; and to the
/// end where the binding is live, else to the last one. `None` where there is no such event.
fn span_of(report: &Report, binding: usize, taken: &[Taken]) -> Option<Span> {
    let is_first = |a: ActResult| matches!(a, ActResult::Attached(b, _) if b as usize == binding);
    let is_early = report
        .sessions
        .as_slice()
        .iter()
        .any(|s| s.before.as_slice().iter().any(|a| is_first(*a)));
    let from = if is_early { 0 } else { taken.first()?.event };
    let is_live = report.tally.bindings().get(binding)?.state == State::Live;
    let to = if is_live {
        u32::MAX
    } else {
        taken.last().map_or(0, |t| t.event)
    };
    Some(Span { from, to })
}

/// Whether a number was taken, among the events of the span, just at those which the binding is to be given.
fn is_unbroken(span: Span, log: &[Entry], taken: &[Taken], whole: &[Entry]) -> bool {
    let is_taken = |event: u32| taken.iter().any(|t| t.event == event);
    whole
        .iter()
        .filter(|e| span.from <= e.event && e.event <= span.to)
        .all(|e| is_taken(e.event) == is_subject(e, log))
}

/// Whether the observer took numbers of the context at events which it is to be given, and between them passed over none.
fn is_observed(
    report: &Report,
    binding: usize,
    log: &[Entry],
    taken: &[Taken],
    whole: &[Entry],
) -> bool {
    taken.iter().all(|t| has_event(whole, t.event))
        && span_of(report, binding, taken).is_none_or(|s| is_unbroken(s, log, taken, whole))
}

/// The logs of the context are as they must be, beside what an observer is given that is attached all along.
fn context_agrees(
    alloc: Global,
    report: &Report,
    context: usize,
    record: &ContextRecord,
    whole: &[Entry],
) -> Result<(), Fault> {
    for (binding, log) in record.logs.as_slice().iter().enumerate() {
        let log = log.as_slice();
        let taken = taken_in(alloc, binding, record.seen.as_slice())?;
        if !rise(taken.as_slice()) {
            return Err(Fault::Order { context, binding });
        }
        if !is_log_of(log, context, taken.as_slice(), whole) {
            return Err(Fault::Log { context, binding });
        }
        let is_shot = binding == ONE_SHOT as usize;
        if !is_shot && !is_observed(report, binding, log, taken.as_slice(), whole) {
            return Err(Fault::Window { context, binding });
        }
    }
    Ok(())
}

/// Whether the logs of all contexts are as they must be, where an observer that is attached all along is given the events
/// of `whole`, as binding 0 is.
pub fn logs_agree(alloc: Global, report: &Report, whole: &[Entry]) -> Result<(), Fault> {
    for (context, record) in report.contexts.as_slice().iter().enumerate() {
        match record.logs.as_slice().first() {
            Some(log) if are_same_events(log.as_slice(), whole) => {}
            _ => return Err(Fault::Log {
                context,
                binding: 0,
            }),
        }
        context_agrees(alloc, report, context, record, whole)?;
    }
    Ok(())
}
