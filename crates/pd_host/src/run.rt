//! A plan's run over a shared board, with a thread for each context and for each session's actions.
ghost use Rattle.std.specs.Prelude.{◌≡◌, length, IfOk};
ghost use Rattle.pd_plan.specs.Sound.{IsSound};
ghost use Rattle.pd_run.specs.Run.{IsRun};

use crate::board::{attach_all, new_board};
use crate::records::session_records;
use crate::work::tasks_of;
use pd_outside::Gate;
use pd_plan::Plan;
use pd_run::{Report, closed};
use pd_threads::{Outcomes, outcomes_of, run_all};
use pd_tree::Program;
use std::alloc::{AllocError, Global};
use std::thread::Threads;

/// Runs a plan. On the first seat of a new board the `before` list of each session is attached, session by session; then
/// each context, and the actions of each session, are done in a thread of their own, on a seat of their own; and when
/// all have come back, the board is closed. The only error is `AllocError`, where memory runs out.
pub fn run_plan<R: Threads + Sync, G: Gate>(
    rt: &R,
    alloc: Global,
    plan: &Plan,
    program: &Program,
    gate: &G,
) -> Result<Report, AllocError>
    requires sound { IsSound plan.now }
    requires entries { length program.now.entries ≡ length plan.now.contexts }
    ensures { IfOk result (IsRun plan.now program.now) }
{
    let (board, token) = new_board(alloc, plan, program)?;
    let mut first = board.sit(token);
    let befores = attach_all(alloc, plan, &mut first)?;
    let tasks = tasks_of(alloc, plan)?;
    let done = run_all(rt, alloc, plan, program, gate, &mut first, tasks)?;
    let last = first.rise();
    let Outcomes {
        records,
        results,
        sights,
    } = outcomes_of(alloc, done)?;
    let sessions = session_records(alloc, befores, results)?;
    let report = closed(alloc, board, last, records, sessions, sights)?;
    Ok(report)
}
