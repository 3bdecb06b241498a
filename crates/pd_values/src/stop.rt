//! Why a call gives no result.
use std::alloc::{AllocError, AllocFailed};

/// Why a call gives no result: it refuses what it was given, or memory ran out.
#[derive(Drop)]
pub enum Stop<R: Drop> {
    /// What was given is refused, for this cause.
    Refused(R),
    /// Memory ran out.
    Memory,
}

impl<R: Drop> From<AllocError> for Stop<R> {
    ghost use Rattle.std.specs.Prelude.{◌≡◌};
    ghost use Rattle.pd_values.specs.declared.stop.Stop.TheVariants.{Memory};

    ghost from_gives = { λ _ e. e ≡ Memory };

    fn from(_e: AllocError) -> Stop<R> {
        Stop::Memory
    }
}

impl<R: Drop, T: Drop> From<AllocFailed<T>> for Stop<R> {
    ghost use Rattle.std.specs.Prelude.{◌≡◌};
    ghost use Rattle.pd_values.specs.declared.stop.Stop.TheVariants.{Memory};

    ghost from_gives = { λ _ e. e ≡ Memory };

    fn from(_e: AllocFailed<T>) -> Stop<R> {
        Stop::Memory
    }
}
