//! The observers that an activation was given to, at its end.
ghost use Rattle.std.specs.Prelude.{◌≡◌, ℕ, ◌<◌, true, false, length, OnOk, List, []};
ghost use Rattle.pd_board.specs.declared.answers.Known.{Known as Knowledge};
ghost use Rattle.pd_board.specs.declared.answers.Known.TheVariants.{Fresh as Unknown};
ghost use Rattle.pd_board.specs.declared.answers.ActResult.{ActResult as Reply};
ghost use Rattle.pd_board.specs.Standing.{bindings};
ghost use Rattle.pd_machine.specs.Events.{Told};
ghost use Rattle.pd_suspend.specs.Steps.{is_enter};
ghost use Rattle.pd_guest.specs.Delivering.{steady_of};
ghost use Rattle.pd_guest.specs.Growing.{IsMore};
ghost use Rattle.pd_guest.specs.Finishing.{IsFinished, IsFit, IsUsed, IsFinishing};

use crate::deliver::{Deliveries, deliver};
use crate::moment::Moment;
use pd_board::{Board, Known};
use std::alloc::AllocError;

/// Serves an observer at the end of an activation that was given to it: it is drawn, or passed where it is known as disposed.
fn finish<B: Board>(
    board: &mut B,
    kept: &mut Deliveries,
    m: &Moment<'_, '_>,
    b: u32,
) -> Result<(), AllocError>
    requires binding { b < bindings (B.standing board.old) }
    requires count { length kept.old.logs.items ≡ bindings (B.standing board.old) }
    requires open { (B.standing board.old).ended ≡ false }
    requires spare { 1 < (B.standing board.old).spare }
    requires share { 0 < (B.standing board.old).draw_share }
    requires known { (B.standing board.old).known b ≡ Unknown → ⊥ }
    ensures finished { OnOk result (IsFinished m.now b (B.standing board.old) (B.standing board.new) kept.old kept.new) }
    ensures steady { steady_of (B.standing board.new) ≡ steady_of (B.standing board.old) }
    ensures base { B.base board.new ≡ B.base board.old }
{
    match board.known(b) {
        Known::Disposed => board.pass(m.event.number, b),
        Known::Fresh | Known::Attached => {
            let _ = deliver(board, kept, m.plan, m.event, b)?;
        }
    }
    Ok(())
}

/// Serves the observers that an activation was given to, rising, at its end.
pub(crate) fn finish_all<B: Board>(
    board: &mut B,
    kept: &mut Deliveries,
    m: &Moment<'_, '_>,
    on: &[u32],
) -> Result<(), AllocError>
    requires { IsFit on.now (B.standing board.old) kept.old }
    ensures fit { OnOk result (IsFit [] (B.standing board.new) kept.new) }
    ensures used { OnOk result (IsUsed m.now.told.event.number (length on.now) (B.standing board.old) (B.standing board.new) kept.old kept.new) }
    ensures finishing { OnOk result ((start : ℕ → Knowledge) (ts : List Told) (done : List (ℕ × Reply)) → is_enter m.now.told.event.kind ≡ false
        → IsFinishing m.now start ts done on.now (B.standing board.old) kept.old
        → IsFinishing m.now start ts done [] (B.standing board.new) kept.new) }
    ensures more { OnOk result (IsMore m.now.plan m.now.told.event.number (B.standing board.old) (B.standing board.new)) }
    ensures steady { steady_of (B.standing board.new) ≡ steady_of (B.standing board.old) }
    ensures base { B.base board.new ≡ B.base board.old }
{
    'on: for b in on {
        finish(board, kept, m, *b)?;
    }
    Ok(())
}
