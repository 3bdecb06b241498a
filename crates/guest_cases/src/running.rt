//! A plan's first context over boards of either kind.
ghost use Rattle.std.specs.Prelude.{◌≡◌, ◌<◌, length, IfOk, OnOk};
ghost use Rattle.pd_plan.specs.Sound.{IsSound};
ghost use Rattle.pd_guest.specs.Beginning.{IsReadyFor};

use pd_board::{Board, PlainBoard};
use pd_filter::matches;
use pd_guest::run_context;
use pd_outside::OpenGate;
use pd_plan::Plan;
use pd_shared::SharedBoard;
use pd_suspend::{ContextRecord, ScriptAnswerer, script_law};
use pd_tree::Program;
use std::alloc::{AllocError, Global};

/// Attaches these bindings of a plan, in order; a number that the plan doesn't have is left out.
fn attach_list<B: Board>(
    alloc: Global,
    plan: &Plan,
    program: &Program,
    bindings: &[u32],
    board: &mut B,
) -> Result<(), AllocError>
    requires { IsReadyFor plan.now program.now (B.standing board.old) }
    ensures { OnOk result (IsReadyFor plan.now program.now (B.standing board.new)) }
{
    let count = plan.bindings.as_slice().len();
    'bindings: for b in bindings {
        if (*b as usize) < count {
            board.reserve(alloc, 1)?;
            let _ = board.attach(*b);
        }
    }
    Ok(())
}

/// Attaches the `before` list of each session, session by session.
fn attach_all<B: Board>(
    alloc: Global,
    plan: &Plan,
    program: &Program,
    board: &mut B,
) -> Result<(), AllocError>
    requires { IsReadyFor plan.now program.now (B.standing board.old) }
    ensures { OnOk result (IsReadyFor plan.now program.now (B.standing board.new)) }
{
    'sessions: for script in plan.sessions.as_slice() {
        attach_list(alloc, plan, program, script.before.as_slice(), board)?;
    }
    Ok(())
}

/// The record of a plan's first context over this board.
fn record_on<B: Board>(
    alloc: Global,
    plan: &Plan,
    program: &Program,
    board: &mut B,
) -> Result<ContextRecord, AllocError>
    requires sound { IsSound plan.now }
    requires context { 0 < length plan.now.contexts }
    requires entry { 0 < length program.now.entries }
    requires board { IsReadyFor plan.now program.now (B.standing board.old) }
{
    attach_all(alloc, plan, program, board)?;
    let mut script = ScriptAnswerer::new(plan);
    script_law();
    run_context(alloc, program, plan, 0, board, &mut script, &OpenGate)
}

/// The record of a plan's first context over a board of one thread.
pub fn over_a_board(
    alloc: Global,
    plan: &Plan,
    program: &Program,
) -> Result<ContextRecord, AllocError>
    requires sound { IsSound plan.now }
    requires context { 0 < length plan.now.contexts }
    requires entry { 0 < length program.now.entries }
{
    let table = matches(alloc, plan, program)?;
    let sessions = plan.sessions.as_slice().len() as u32;
    let contexts = plan.contexts.as_slice().len() as u32;
    let mut board = PlainBoard::new(alloc, &table, program.nodes(), sessions, contexts)?;
    record_on(alloc, plan, program, &mut board)
}

/// The record of a plan's first context over a seat of a shared board.
pub fn over_a_seat(
    alloc: Global,
    plan: &Plan,
    program: &Program,
) -> Result<ContextRecord, AllocError>
    requires sound { IsSound plan.now }
    requires context { 0 < length plan.now.contexts }
    requires entry { 0 < length program.now.entries }
{
    let table = matches(alloc, plan, program)?;
    let sessions = plan.sessions.as_slice().len() as u32;
    let contexts = plan.contexts.as_slice().len() as u32;
    let (board, token) = SharedBoard::new(alloc, &table, program.nodes(), sessions, contexts)?;
    let mut seat = board.sit(token);
    record_on(alloc, plan, program, &mut seat)
}
