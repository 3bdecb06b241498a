//! The numbers of sights and answers.
ghost use Rattle.std.specs.Prelude.{◌≡◌};
ghost use Rattle.pd_board.specs.Answers.{number_of as number_by};

use crate::seen::Answer;
use pd_board::{Drawn, Sight};
use std::alloc::{AllocError, Global};

/// The sights of the binding, in order.
pub fn sights_of(alloc: Global, b: u32, sights: &[Sight]) -> Result<Vec<Sight>, AllocError> {
    sights
        .iter()
        .copied()
        .filter(|s| s.binding == b)
        .collect(alloc)
}

/// The number that a draw gave, as a place or as a missed one.
fn number_of(drawn: Drawn) -> Option<u64>
    ensures { result ≡ number_by drawn }
{
    match drawn {
        Drawn::On { place } => Some(place),
        Drawn::Missed { number } => Some(number),
        Drawn::Off => None,
    }
}

/// The numbers that the sights took, in order.
pub fn numbers_of(alloc: Global, sights: &[Sight]) -> Result<Vec<u64>, AllocError> {
    sights
        .iter()
        .filter_map(|s| number_of(s.drawn))
        .collect(alloc)
}

/// The answer number, where it is one of the session.
fn answer_in(session: u32, answer: &Answer) -> Option<u64> {
    if answer.session == session {
        Some(answer.number)
    } else {
        None
    }
}

/// The answer numbers of the session, in order.
pub fn answers_of(alloc: Global, session: u32, answers: &[Answer]) -> Result<Vec<u64>, AllocError> {
    answers
        .iter()
        .filter_map(|a| answer_in(session, a))
        .collect(alloc)
}
