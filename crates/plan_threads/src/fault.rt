//! What can be wrong with a run.
ghost use Rattle.std.specs.Prelude.{◌≡◌};
ghost use Rattle.plan_threads.specs.declared.fault.Fault.TheVariants.{Memory};

use std::alloc::{AllocError, AllocFailed};

/// Why a plan could not be run, or what of its report or transcript isn't as it must be.
#[derive(Clone, Copy, Debug, Drop)]
pub enum Fault {
    /// Memory ran out.
    Memory,
    /// The command came to no report.
    NoReport,
    /// The report has not so many contexts, sessions or bindings.
    Lengths,
    /// The context ran otherwise than by itself.
    Context { context: usize },
    /// Not just one context was suspended, once, by the one-shot breakpoint.
    Stops,
    /// The numbers that the context took of the binding, or its events, do not rise.
    Order { context: usize, binding: usize },
    /// The log has not just what the context saw of the binding.
    Log { context: usize, binding: usize },
    /// The binding was passed over between two events at which it was observed, or observed where it mustn't be.
    Window { context: usize, binding: usize },
    /// The numbers of the binding over all contexts are not those below its count, each once.
    Numbers { binding: usize },
    /// The binding's state, attaches and disposals don't go together.
    Life { binding: usize },
    /// The toggles of the binding don't alternate, or a number is a place where it was off, or missed where it was on.
    Toggles { binding: usize },
    /// The line of the transcript, counted from 0, isn't the one of the report.
    Line { line: usize },
}

impl From<AllocError> for Fault {
    ghost from_gives = { λ _ e. e ≡ Memory };

    fn from(_e: AllocError) -> Fault {
        Fault::Memory
    }
}

impl<T: Drop> From<AllocFailed<T>> for Fault {
    ghost from_gives = { λ _ e. e ≡ Memory };

    fn from(_e: AllocFailed<T>) -> Fault {
        Fault::Memory
    }
}
