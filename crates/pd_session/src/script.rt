//! The actions of a session's script.
ghost use Rattle.std.specs.Prelude.{◌≡◌, ℕ, ◌+◌, ◌<◌, ◌≤◌, ◌^◌, IfOk, length};
ghost use Rattle.std.specs.List.{AllByRecursion};
ghost use Rattle.pd_board.specs.Standing.{bindings};
ghost use Rattle.pd_session.specs.Doing.{MayDo, turns_of, turns_in, IsDone, AreDone, done_to};

use crate::acting::act;
use crate::record::ActionResult;
use pd_board::{Board, await_answers};
use pd_outside::Gate;
use pd_plan::{Action, Script};
use std::alloc::{AllocError, Global};

/// Does one action.
fn do_action<B: Board>(
    alloc: Global,
    action: Action,
    session: u32,
    board: &mut B,
) -> Result<ActionResult, AllocError>
    requires session { session < (B.standing board.old).sessions }
    requires may { MayDo (bindings (B.standing board.old)) action }
    requires draws { 1 ≤ (B.standing board.old).draw_share }
    requires answers { (s : ℕ) → s < (B.standing board.old).sessions → 1 ≤ (B.standing board.old).answer_share s }
    requires loads { (B.standing board.old).answer_loads session + turns_of action < 2 ^ 32 }
    requires ends { (B.standing board.old).end_loads + turns_of action < 2 ^ 32 }
    ensures done { IfOk result (λ r. IsDone session action (B.standing board.old) (B.standing board.new) r) }
    ensures rest { B.standing board.new ≡ done_to (B.standing board.new) (B.standing board.old) }
    ensures base { B.base board.new ≡ B.base board.old }
{
    match action {
        Action::Act(a) => {
            board.reserve(alloc, 1)?;
            Ok(ActionResult::Act(act(a, board)))
        }
        Action::Await { count, turns } => {
            let waited = await_answers(board, session, count, turns);
            Ok(ActionResult::Awaited(count, waited))
        }
    }
}

/// Does the actions of the session, in order, and keeps what each gave; an await is on the session's own answers. Before
/// each of them the gate is told its position, counted from 0. The only error is `AllocError`, where memory runs out; the
/// board keeps what was done before.
pub fn run_script<B: Board, G: Gate>(
    alloc: Global,
    script: &Script,
    session: u32,
    board: &mut B,
    gate: &G,
) -> Result<Vec<ActionResult>, AllocError>
    requires session { session < (B.standing board.old).sessions }
    requires few { length script.now.actions < 2 ^ 32 }
    requires may { AllByRecursion (MayDo (bindings (B.standing board.old))) script.now.actions }
    requires draws { 1 ≤ (B.standing board.old).draw_share }
    requires answers { (s : ℕ) → s < (B.standing board.old).sessions → 1 ≤ (B.standing board.old).answer_share s }
    requires loads { (B.standing board.old).answer_loads session + turns_in script.now.actions < 2 ^ 32 }
    requires ends { (B.standing board.old).end_loads + turns_in script.now.actions < 2 ^ 32 }
    ensures done { IfOk result (λ results. AreDone session script.now.actions results.items (B.standing board.old) (B.standing board.new)) }
    ensures rest { B.standing board.new ≡ done_to (B.standing board.new) (B.standing board.old) }
    ensures base { B.base board.new ≡ B.base board.old }
{
    let mut results = Vec::new(alloc);
    let mut position = 0;
    for &action in script.actions.as_slice() {
        gate.act(session, position);
        position += 1;
        results.push(do_action(alloc, action, session, board)?)?;
    }
    Ok(results)
}
