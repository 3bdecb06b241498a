//! A seat for each piece of work.
ghost use Rattle.std.specs.Prelude.{◌≡◌, vec_len, map, IfOk, OnOk};
ghost use Rattle.pd_seats.specs.Shares.{HasFor, HasHandedOn, AreNewcomers};

use crate::pieces::Piece;
use pd_shared::Seat;
use std::alloc::{AllocError, Global};

/// A piece of work for each of these owns, with a seat that is split off from the first one, which has what they are
/// handed. Where memory runs out it answers `AllocError`, and those that were made are lost.
pub fn pieces_for<'b, O: Drop>(
    alloc: Global,
    first: &mut Seat<'b>,
    owns: Vec<O>,
) -> Result<Vec<Piece<'b, O>>, AllocError>
    requires { HasFor (vec_len owns) first.old }
    ensures own { IfOk result (λ pieces. map (λ (p : _). p.own) pieces.items ≡ owns.items) }
    ensures new { IfOk result (λ pieces. AreNewcomers first.old (map (λ (p : _). p.seat) pieces.items)) }
    ensures handed { OnOk result (HasHandedOn (vec_len owns) first.old first.new) }
{
    let mut pieces = Vec::new(alloc);
    for own in owns {
        let seat = first.split(alloc)?;
        pieces.push(Piece { seat, own })?;
    }
    Ok(pieces)
}
