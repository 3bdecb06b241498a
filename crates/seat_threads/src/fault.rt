//! What can be wrong with a round.
ghost use Rattle.std.specs.Prelude.{◌≡◌};
ghost use Rattle.seat_threads.specs.declared.fault.Fault.TheVariants.{Memory};

use std::alloc::{AllocError, AllocFailed};

/// A call of a seat.
#[derive(Clone, Copy, Debug, Drop)]
pub enum Call {
    Reserve,
    Load,
    Draw,
    Sweep,
    Act,
    Answer,
    End,
    Split,
}

/// Why a round could not be played, or how its tally and what its seats were told differ.
#[derive(Clone, Copy, Debug, Drop)]
pub enum Fault {
    /// Memory ran out.
    Memory,
    /// A player may not make this call where it stands.
    Refused(Call),
    /// What a seat kept is not what its calls told.
    Kept { seat: usize },
    /// The tally has not so many bindings, or not so many sessions.
    Lengths,
    /// The numbers that a seat took of the binding do not rise.
    Order { seat: usize, binding: u32 },
    /// The numbers of the binding are not those below its count, each once.
    Numbers { binding: u32 },
    /// The state of the binding is not the one of the answers.
    State { binding: u32 },
    /// Not just one of the attaches of the binding came first.
    Attaches { binding: u32 },
    /// Not just one of the disposals of the binding came first, or it found another count.
    Disposals { binding: u32 },
    /// The disables of the binding are neither as many as the enables nor one more, or one found too great a count.
    Toggles { binding: u32 },
    /// A number of the binding is a place where it was switched off, or missed where it was on.
    Places { binding: u32 },
    /// The answer numbers that a seat took of the session do not rise.
    AnswerOrder { seat: usize, session: u32 },
    /// The answer numbers of the session are not those below its number of answers, each once.
    Answers { session: u32 },
}

impl From<AllocError> for Fault {
    ghost from_gives = { λ _ e. e ≡ Memory };

    fn from(_e: AllocError) -> Fault {
        Fault::Memory
    }
}

impl<T: Drop> From<AllocFailed<T>> for Fault {
    ghost from_gives = { λ _ e. e ≡ Memory };

    fn from(_e: AllocFailed<T>) -> Fault {
        Fault::Memory
    }
}
