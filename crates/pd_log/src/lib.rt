//! A binding's log of one context: its entries, the pairing of an activation's end with its Enter, and the merging of
//! the logs of several contexts.
#![tactic(auto)]

ghost use Rattle.std.specs.Prelude.{ℕ, ◌<◌, ◌^◌, length, MatchOption, IfOk};
ghost use Rattle.pd_log.specs.Pairing.{IsByEvent, IsEnterOf, IsPartner};
ghost use Rattle.pd_log.specs.Merging.{entries_in, PlacesDiffer, IsMerged};

use pd_machine::EventKind;
use pd_values::NodeId;
use std::alloc::{AllocError, Global};

/// One delivery: the context, the event's number there, the number of the Enter of the same activation, the
/// place in the binding's own numbering, what happened, and the node.
#[derive(Drop)]
pub struct Entry {
    pub context: u32,
    pub event: u32,
    pub opened: u32,
    pub place: u64,
    pub kind: EventKind,
    pub node: NodeId,
}

/// The position of the Enter of the entry at `i`, by a binary search. `None` comes exactly where that entry is
/// an Enter itself, or its Enter isn't in the log. Condition: the log is one context's, so events rise, and `i`
/// is a position of it. It takes no memory.
pub fn partner(log: &[Entry], i: u32) -> Option<u32>
    requires of_one_context { IsByEvent log.now }
    requires room { length log.now < 2 ^ 32 }
    requires within { i < length log.now }
    ensures { MatchOption result ((j : ℕ) → IsPartner log.now i j → ⊥) (λ j. IsPartner log.now i j) }
{
    let entry = &log[i as usize];
    match entry.kind {
        EventKind::Enter => None,
        _ => enter_of(log, entry.opened),
    }
}

// The position of the Enter of this event, if the log has it.
fn enter_of(log: &[Entry], event: u32) -> Option<u32>
    requires of_one_context { IsByEvent log.now }
    requires room { length log.now < 2 ^ 32 }
    ensures { MatchOption result ((j : ℕ) → IsEnterOf log.now event j → ⊥) (λ j. IsEnterOf log.now event j) }
{
    match log.binary_search_by_key(&event, |entry| entry.event) {
        Ok(at) => match log[at].kind {
            EventKind::Enter => Some(at as u32),
            _ => None,
        },
        Err(_) => None,
    }
}

/// The entries of all logs, by place: those of one binding in several contexts as one log. Condition: no two of them
/// have one place. The only error is `AllocError`, where memory runs out.
pub fn merge(alloc: Global, logs: Vec<Vec<Entry>>) -> Result<Vec<Entry>, AllocError>
    requires differ { PlacesDiffer (entries_in logs.items) }
    ensures { IfOk result (λ merged. IsMerged (entries_in logs.items) merged.items) }
{
    let mut entries = Vec::new(alloc);
    for mut log in logs {
        entries.append(&mut log)?;
    }
    entries.sort_unstable_by_key(|entry| entry.place);
    Ok(entries)
}
