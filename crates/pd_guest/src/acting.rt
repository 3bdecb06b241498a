//! The acts of an answer.
ghost use Rattle.std.specs.Prelude.{◌≡◌, ℕ, ◌<◌, ◌+◌, nat_lt, true, IfOk, [], ◌∷◌, ◌++◌, map};
ghost use Rattle.std.specs.List.{list_all};
ghost use Rattle.pd_board.specs.Standing.{bindings};
ghost use Rattle.pd_guest.specs.Delivering.{settled_of};
ghost use Rattle.pd_guest.specs.Replying.{act_of};
ghost use Rattle.pd_guest.specs.Acting.{binding_of, IsActDone, AreActsDone};

use pd_board::{ActResult, Board};
use pd_plan::Act;
use pd_values::Items;
use std::alloc::{AllocError, Global};

/// Does the acts of an answer, in order, and gives what each was answered.
pub(crate) fn do_all<B: Board>(
    alloc: Global,
    board: &mut B,
    acts: &[Act],
) -> Result<Items<ActResult>, AllocError>
    requires bindings { list_all (λ a. nat_lt (binding_of a) (bindings (B.standing board.old))) acts.now ≡ true }
    requires draws { 0 < (B.standing board.old).draw_share }
    requires answers { (x : ℕ) → x < (B.standing board.old).sessions → 0 < (B.standing board.old).answer_share x }
    ensures acts { IfOk result (λ rs. map act_of rs ≡ acts.now) }
    ensures done { IfOk result (λ rs. AreActsDone rs (B.standing board.old) (B.standing board.new)) }
    ensures settled { settled_of (B.standing board.new) ≡ settled_of (B.standing board.old) }
    ensures base { B.base board.new ≡ B.base board.old }
{
    let mut results = Items::of(Vec::new(alloc));
    'acts: for act in acts {
        board.reserve(alloc, 1)?;
        results.push(do_one(board, *act))?;
    }
    Ok(results)
}

/// Does an act.
fn do_one<B: Board>(board: &mut B, act: Act) -> ActResult
    requires binding { binding_of act < bindings (B.standing board.old) }
    requires spare { 0 < (B.standing board.old).spare }
    ensures act { act_of result ≡ act }
    ensures done { IsActDone result (B.standing board.old) (B.standing board.new) }
    ensures replies { (B.standing board.new).replies ≡ (B.standing board.old).replies ++ result ∷ [] }
    ensures settled { settled_of (B.standing board.new) ≡ settled_of (B.standing board.old) }
    ensures base { B.base board.new ≡ B.base board.old }
{
    match act {
        Act::Attach(b) => ActResult::Attached(b, board.attach(b)),
        Act::Dispose(b) => ActResult::Disposed(b, board.dispose(b)),
        Act::Enable(b) => ActResult::Enabled(b, board.enable(b)),
        Act::Disable(b) => ActResult::Disabled(b, board.disable(b)),
    }
}
