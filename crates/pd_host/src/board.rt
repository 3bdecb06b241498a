//! The board of a run before it begins.
ghost use Rattle.std.specs.Prelude.{◌≡◌, ◌^◌, [], length, map, vec_len, IfOk, OnOk};
ghost use Rattle.pd_plan.specs.Sound.{IsSound};
ghost use Rattle.pd_filter.specs.Matching.{table_of};
ghost use Rattle.pd_board.specs.Standing.{IsNew, bindings};
ghost use Rattle.pd_core.specs.Views.{first_view};
ghost use Rattle.pd_session.specs.Attaching.{attached_to};
ghost use Rattle.pd_session.specs.Before.{AreAllAttached};
ghost use Rattle.pd_shared.specs.Sitting.{IsOf, standing_of, base_of};
ghost use Rattle.pd_host.specs.Beginning.{IsFirstOf, HasRoom};

use pd_board::ActResult;
use pd_index::matches;
use pd_plan::Plan;
use pd_session::run_before;
use pd_shared::{Seat, SharedBoard, Token};
use pd_tree::Program;
use std::alloc::{AllocError, Global};

/// A shared board for a plan and its program, on which nothing was done, with its first token.
pub(crate) fn new_board(
    alloc: Global,
    plan: &Plan,
    program: &Program,
) -> Result<(SharedBoard, Token), AllocError>
    requires sound { IsSound plan.now }
    ensures of { IfOk result (λ r. IsOf r.0.core r.1) }
    ensures first { IfOk result (λ r. IsFirstOf plan.now program.now (record { hub = r.0.core; table = r.0.table; token = r.1 })) }
{
    let table = matches(alloc, plan, program)?;
    let sessions = plan.sessions.as_slice().len() as u32;
    let contexts = plan.contexts.as_slice().len() as u32;
    SharedBoard::new(alloc, &table, program.nodes(), sessions, contexts)
}

/// Attaches the `before` list of each session, session by session, and keeps the answers.
pub(crate) fn attach_all(
    alloc: Global,
    plan: &Plan,
    seat: &mut Seat<'_>,
) -> Result<Vec<Vec<ActResult>>, AllocError>
    requires sound { IsSound plan.now }
    requires bindings { bindings (standing_of seat.old) ≡ length plan.now.bindings }
    requires room { HasRoom (standing_of seat.old) }
    ensures attached { IfOk result (λ answers. AreAllAttached plan.now.sessions (map (λ v. v.items) answers.items) (standing_of seat.old) (standing_of seat.new)) }
    ensures rest { OnOk result (standing_of seat.new ≡ attached_to (standing_of seat.new) (standing_of seat.old)) }
    ensures base { OnOk result (base_of seat.new ≡ base_of seat.old) }
{
    let mut answers = Vec::new(alloc);
    for script in plan.sessions.as_slice() {
        answers.push(run_before(alloc, script.before.as_slice(), seat)?)?;
    }
    Ok(answers)
}
