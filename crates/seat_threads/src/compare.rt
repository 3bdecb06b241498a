//! Whether the tally of a board agrees with what all of its seats were told.

use crate::bindings::binding_agrees;
use crate::choices::{BINDINGS, SESSIONS};
use crate::fault::Fault;
use crate::numbers::{each_once, rises};
use crate::seen::Seen;
use crate::sights::{answers_of, numbers_of, sights_of};
use pd_board::BindingTally;
use pd_shared::Sights;
use std::alloc::Global;

/// The numbers that the seat took of each binding, and of each session, rise.
fn seat_agrees(alloc: Global, seat: usize, seen: &Seen) -> Result<(), Fault> {
    for binding in 0..BINDINGS {
        let sights = sights_of(alloc, binding, seen.sights.as_slice())?;
        if !rises(numbers_of(alloc, sights.as_slice())?.as_slice()) {
            return Err(Fault::Order { seat, binding });
        }
    }
    for session in 0..SESSIONS {
        if !rises(answers_of(alloc, session, seen.answers.as_slice())?.as_slice()) {
            return Err(Fault::AnswerOrder { seat, session });
        }
    }
    Ok(())
}

/// A seat that retired had kept just the draws and acts that its calls told.
fn kept_agrees(seat: usize, seen: &Seen, kept: &Sights) -> Result<(), Fault> {
    if kept.list() != seen.sights.as_slice() || kept.replies() != seen.replies.as_slice() {
        return Err(Fault::Kept { seat });
    }
    Ok(())
}

/// All that the seats were told, one seat after another.
fn together(alloc: Global, seats: &[Seen]) -> Result<Seen, Fault> {
    let mut all = Seen::new(alloc);
    for seen in seats {
        all.add(seen)?;
    }
    Ok(all)
}

/// The tally agrees with what all seats were told together.
fn tally_agrees(
    alloc: Global,
    bindings: &[BindingTally],
    answers: &[u32],
    all: &Seen,
) -> Result<(), Fault> {
    if bindings.len() != BINDINGS as usize || answers.len() != SESSIONS as usize {
        return Err(Fault::Lengths);
    }
    for (binding, told) in (0..BINDINGS).zip(bindings) {
        binding_agrees(alloc, binding, *told, all)?;
    }
    for (session, count) in (0..SESSIONS).zip(answers) {
        let numbers = answers_of(alloc, session, all.answers.as_slice())?;
        if !each_once(numbers.as_slice(), u64::from(*count)) {
            return Err(Fault::Answers { session });
        }
    }
    Ok(())
}

/// Whether all agrees: the tally, by its bindings and its sessions' numbers of answers, with what the seats were told,
/// each seat's numbers with their order, and what those that retired had kept with what they were told. The last of
/// `seats` is the one that took the others in.
pub fn agree(
    alloc: Global,
    bindings: &[BindingTally],
    answers: &[u32],
    seats: &[Seen],
    kept: &[Sights],
) -> Result<(), Fault> {
    for (seat, seen) in seats.iter().enumerate() {
        seat_agrees(alloc, seat, seen)?;
    }
    for (seat, (seen, left)) in seats.iter().zip(kept).enumerate() {
        kept_agrees(seat, seen, left)?;
    }
    tally_agrees(alloc, bindings, answers, &together(alloc, seats)?)
}
