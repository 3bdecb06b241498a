//! One act of a script.
ghost use Rattle.std.specs.Prelude.{◌≡◌, ◌<◌};
ghost use Rattle.pd_board.specs.Standing.{bindings};
ghost use Rattle.pd_session.specs.Doing.{binding_of, IsActed};

use pd_board::{ActResult, Board};
use pd_plan::Act;

/// Makes the act, and gives its answer.
pub(crate) fn act<B: Board>(act: Act, board: &mut B) -> ActResult
    requires binding { binding_of act < bindings (B.standing board.old) }
    requires spare { 0 < (B.standing board.old).spare }
    ensures acted { IsActed act result (B.standing board.old) (B.standing board.new) }
    ensures base { B.base board.new ≡ B.base board.old }
{
    match act {
        Act::Attach(b) => ActResult::Attached(b, board.attach(b)),
        Act::Dispose(b) => ActResult::Disposed(b, board.dispose(b)),
        Act::Enable(b) => ActResult::Enabled(b, board.enable(b)),
        Act::Disable(b) => ActResult::Disabled(b, board.disable(b)),
    }
}
