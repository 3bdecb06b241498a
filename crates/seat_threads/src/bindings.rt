//! Whether the tally of a binding agrees with what all seats were told of it.
use crate::fault::Fault;
use crate::numbers::each_once;
use crate::replies::{Toggles, one_attaches, one_disposes, replies_of, state_of};
use crate::seen::Seen;
use crate::sights::{numbers_of, sights_of};
use pd_board::{ActResult, BindingTally, Drawn, Sight};
use std::alloc::Global;

/// The state, the attaches and the disposals are as the answers of all acts on the binding say.
fn acts_agree(binding: u32, tally: BindingTally, replies: &[ActResult]) -> Result<(), Fault> {
    if tally.state != state_of(replies) {
        return Err(Fault::State { binding });
    }
    if !one_attaches(replies, tally.count) {
        return Err(Fault::Attaches { binding });
    }
    if !one_disposes(replies, tally.count) {
        return Err(Fault::Disposals { binding });
    }
    Ok(())
}

/// A place was drawn where the toggles up to its number had the binding on, and a missed number where they had it off.
fn fits(drawn: Drawn, toggles: &Toggles) -> bool {
    match drawn {
        Drawn::On { place } => toggles.is_off_by(place, 0),
        Drawn::Missed { number } => toggles.is_off_by(number, 1),
        Drawn::Off => true,
    }
}

/// Whether all draws fit the toggles.
fn all_fit(sights: &[Sight], toggles: &Toggles) -> bool {
    for sight in sights {
        if !fits(sight.drawn, toggles) {
            return false;
        }
    }
    true
}

/// The tally of the binding agrees with what all seats were told together.
pub fn binding_agrees(
    alloc: Global,
    binding: u32,
    tally: BindingTally,
    all: &Seen,
) -> Result<(), Fault> {
    let sights = sights_of(alloc, binding, all.sights.as_slice())?;
    let numbers = numbers_of(alloc, sights.as_slice())?;
    if !each_once(numbers.as_slice(), tally.count) {
        return Err(Fault::Numbers { binding });
    }
    let replies = replies_of(alloc, binding, all.replies.as_slice())?;
    acts_agree(binding, tally, replies.as_slice())?;
    let toggles = Toggles::of(alloc, replies.as_slice())?;
    if !toggles.end_at(tally.count) {
        return Err(Fault::Toggles { binding });
    }
    if !all_fit(sights.as_slice(), &toggles) {
        return Err(Fault::Places { binding });
    }
    Ok(())
}
