//! The seats of pieces of work retire into the first one.
ghost use Rattle.std.specs.Prelude.{◌≡◌, ℕ, ◌+◌, ◌<◌, [], ◌++◌, List, length, map, vec_len, IfOk, OnOk};
ghost use Rattle.std.specs.List.{All};
ghost use Rattle.pd_shared.specs.declared.sights.Sights.{Sights};
ghost use Rattle.pd_shared.specs.Left.{DidLeave, HasLearned};
ghost use Rattle.pd_seats.specs.Gathered.{IsOneSeat, IsGathered};

use crate::pieces::Piece;
use pd_shared::{Seat, Sights};
use std::alloc::{AllocError, Global};

/// A piece of work that was done: what was its own, and what its seat left.
#[derive(Drop)]
pub struct Done<O> {
    pub own: O,
    pub sights: Sights,
}

/// Retires the seats of all pieces into one, in order.
pub fn gathered<O: Drop>(
    alloc: Global,
    pieces: Vec<Piece<'_, O>>,
    into: &mut Seat<'_>,
) -> Result<Vec<Done<O>>, AllocError>
    requires { All (λ p. IsOneSeat into.old.hub p.seat) pieces.items }
    ensures own { IfOk result (λ done. map (λ (d : _). d.own) done.items ≡ map (λ (p : _). p.own) pieces.entry.items) }
    ensures gathered { IfOk result (λ done. IsGathered (map (λ (p : _). p.seat) pieces.entry.items) (map (λ (d : _). d.sights) done.items) into.old into.new) }
{
    let mut done = Vec::new(alloc);
    for piece in pieces {
        let Piece { seat, own } = piece;
        let sights = seat.retire(into);
        done.push(Done { own, sights })?;
    }
    Ok(done)
}
