//! The numbers that contexts took of a binding.
use pd_board::{Drawn, Sight};
use pd_run::Report;
use std::alloc::{AllocError, Global};

/// A number that a context took of a binding: at which event, and whether it is a place in its log.
#[derive(Clone, Copy, Drop)]
pub struct Taken {
    pub event: u32,
    pub number: u64,
    pub on: bool,
}

/// The number of the sight, if it is one of the binding and took one.
fn taken_by(binding: usize, sight: Sight) -> Option<Taken> {
    let event = sight.event;
    if sight.binding as usize != binding {
        return None;
    }
    match sight.drawn {
        Drawn::On { place } => Some(Taken {
            event,
            number: place,
            on: true,
        }),
        Drawn::Missed { number } => Some(Taken {
            event,
            number,
            on: false,
        }),
        Drawn::Off => None,
    }
}

/// The numbers of the binding among these sights, in order.
pub fn taken_in(alloc: Global, binding: usize, sights: &[Sight]) -> Result<Vec<Taken>, AllocError> {
    sights
        .iter()
        .filter_map(|s| taken_by(binding, *s))
        .collect(alloc)
}

/// The numbers of the binding over all contexts, context by context.
pub fn taken_in_all(
    alloc: Global,
    binding: usize,
    report: &Report,
) -> Result<Vec<Taken>, AllocError> {
    let mut all = Vec::new(alloc);
    for context in report.contexts.as_slice() {
        let some = taken_in(alloc, binding, context.seen.as_slice())?;
        all.extend_from_slice(some.as_slice())?;
    }
    Ok(all)
}

/// Whether events and numbers rise.
pub fn rise(taken: &[Taken]) -> bool {
    for i in 1..taken.len() {
        let (one, next) = (taken[i - 1], taken[i]);
        if one.event >= next.event || one.number >= next.number {
            return false;
        }
    }
    true
}

/// Whether the numbers are those below the count, each once, in any order.
pub fn are_below(alloc: Global, taken: &[Taken], count: u64) -> Result<bool, AllocError> {
    let mut numbers: Vec<u64> = taken.iter().map(|t| t.number).collect(alloc)?;
    numbers.sort_unstable();
    Ok(numbers.len() as u64 == count && (0..count).zip(numbers).all(|(wanted, n)| wanted == n))
}
