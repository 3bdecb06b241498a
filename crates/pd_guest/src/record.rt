//! The record of a context.
ghost use Rattle.std.specs.Prelude.{◌≡◌, ℕ, ◌<◌, ◌≤◌, ◌^◌, true, length, slice_index, slice_index_or, IfOk, []};
ghost use Rattle.pd_board.specs.Standing.{bindings};
ghost use Rattle.pd_meaning.specs.Meaning.{meaning_of};
ghost use Rattle.pd_plan.specs.declared.plan.Answer.{Answer as Given};
ghost use Rattle.pd_suspend.specs.declared.suspension.Suspension.{Suspension as Stop};
ghost use Rattle.pd_suspend.specs.Answers.{IsLawful};
ghost use Rattle.pd_suspend.specs.Counters.{idle};
ghost use Rattle.pd_suspend.specs.Stops.{verdicts_of};
ghost use Rattle.pd_record.specs.Serving.{log_at};
ghost use Rattle.pd_record.specs.Record.{IsRecord, IsReplied};
ghost use Rattle.pd_guest.specs.Replying.{IsGiven};
ghost use Rattle.pd_guest.specs.Keeping.{IsNew};
ghost use Rattle.pd_guest.specs.Beginning.{fuel_at, IsReadyFor, IsKeptWith, IsOver, words_of};

use crate::deliver::Deliveries;
use crate::first::{FirstBoard, FirstList};
use crate::serving::Progress;
use crate::watch::Guest;
use pd_board::Board;
use pd_eval::{Heard, Ran};
use pd_log::Entry;
use pd_outside::Gate;
use pd_plan::Plan;
use pd_suspend::{Answerer, ContextRecord, Stepper};
use pd_tree::Program;
use pd_values::Items;
use std::alloc::{AllocError, Global};

/// Runs a context of a plan over a board on which nothing of it was done. The program has an entry for the context, whose
/// fuel is at most 16,777,216, and each answer that the answerer may give is lawful for the plan. At each event, in this
/// order: the gate is asked; the bindings are drawn, rising; and each session that has a reason is suspended, in order,
/// until an answer changes the run. `Ok` means besides that nothing is due any more.
///
/// The only error is `AllocError`, where memory runs out; the board then keeps what was done before, and the context is
/// counted as ended all the same.
pub fn run_context<B: Board, A: Answerer, G: Gate>(
    alloc: Global,
    program: &Program,
    plan: &Plan,
    context: u32,
    board: &mut B,
    answerer: &mut A,
    gate: &G,
) -> Result<ContextRecord, AllocError>
    requires entry { context < length program.now.entries }
    requires fuel { fuel_at plan.now context ≤ 2 ^ 24 }
    requires board { IsReadyFor plan.now program.now (B.standing board.old) }
    requires lawful { (x : Stop) (a : Given) → A.admits (A.base answerer.old) x a → IsLawful plan.now a }
    ensures record { IfOk result (IsRecord plan.now program.now (slice_index program.now.entries context) (fuel_at plan.now context) context (B.standing board.old) (B.standing board.new)) }
    ensures given { IfOk result (λ r. IsGiven (A.admits (A.base answerer.old)) (A.keeps (A.base answerer.old)) (A.list answerer.old) (A.list answerer.new) r.stops) }
    ensures replied { IfOk result (λ r. IsReplied plan.now (B.standing board.old) (B.standing board.new) (meaning_of program.now (slice_index program.now.entries context) (fuel_at plan.now context) (verdicts_of r.stops)).events r) }
    ensures over { IfOk result (λ _. IsOver (B.standing board.old) (B.standing board.new)) }
    ensures ended { (B.standing board.new).ended ≡ true }
    ensures words { words_of (B.standing board.new) ≡ words_of (B.standing board.old) }
    ensures base { B.base board.new ≡ B.base board.old }
    ensures answerer { A.base answerer.new ≡ A.base answerer.old }
{
    match begin(alloc, board, answerer, plan, context) {
        Ok(h) => run_begun(alloc, program, plan, context, board, answerer, gate, h),
        Err(e) => {
            board.ended();
            Err(e)
        }
    }
}

/// Runs a context of which this is kept, and counts it as ended.
fn run_begun<B: Board, A: Answerer, G: Gate>(
    alloc: Global,
    program: &Program,
    plan: &Plan,
    context: u32,
    board: &mut B,
    answerer: &mut A,
    gate: &G,
    h: Progress,
) -> Result<ContextRecord, AllocError>
    requires entry { context < length program.now.entries }
    requires fuel { fuel_at plan.now context ≤ 2 ^ 24 }
    requires board { IsReadyFor plan.now program.now (B.standing board.old) }
    requires lawful { (x : Stop) (a : Given) → A.admits (A.base answerer.old) x a → IsLawful plan.now a }
    requires new { IsNew context (length plan.now.bindings) (length plan.now.sessions) (B.standing board.old) (A.list answerer.old) h }
    ensures record { IfOk result (IsRecord plan.now program.now (slice_index program.now.entries context) (fuel_at plan.now context) context (B.standing board.old) (B.standing board.new)) }
    ensures given { IfOk result (λ r. IsGiven (A.admits (A.base answerer.old)) (A.keeps (A.base answerer.old)) (A.list answerer.old) (A.list answerer.new) r.stops) }
    ensures replied { IfOk result (λ r. IsReplied plan.now (B.standing board.old) (B.standing board.new) (meaning_of program.now (slice_index program.now.entries context) (fuel_at plan.now context) (verdicts_of r.stops)).events r) }
    ensures over { IfOk result (λ _. IsOver (B.standing board.old) (B.standing board.new)) }
    ensures ended { (B.standing board.new).ended ≡ true }
    ensures words { words_of (B.standing board.new) ≡ words_of (B.standing board.old) }
    ensures base { B.base board.new ≡ B.base board.old }
    ensures answerer { A.base answerer.new ≡ A.base answerer.old }
{
    let mut guest = Guest {
        board,
        answerer,
        plan,
        program,
        gate,
        alloc,
        h,
    };
    let entry = program.entry(context);
    let ran = pd_eval::run(alloc, program, entry, fuel(plan, context), &mut guest);
    let Guest {
        board: last,
        answerer: asked,
        plan: _,
        program: _,
        gate: _,
        alloc: _,
        h,
    } = guest;
    last.ended();
    leave(asked);
    Ok(record(ran?, h))
}

/// The fuel of a context; 0 for one that the plan doesn't have.
fn fuel(plan: &Plan, context: u32) -> u32
    ensures { result ≡ fuel_at plan.now context }
{
    match plan.contexts.get(context as usize) {
        Some(spec) => spec.fuel,
        None => 0,
    }
}

/// What a context keeps before its first event.
fn begin<B: Board, A: Answerer>(
    alloc: Global,
    board: &B,
    answerer: &A,
    plan: &Plan,
    context: u32,
) -> Result<Progress, AllocError>
    requires { length plan.now.bindings ≡ bindings (B.standing board.now) }
    ensures { IfOk result (IsNew context (length plan.now.bindings) (length plan.now.sessions) (B.standing board.now) (A.list answerer.now)) }
{
    Ok(Progress {
        context,
        opens: Vec::new(alloc),
        kept: Deliveries {
            context,
            logs: no_logs(alloc, plan.bindings.as_slice().len())?,
            seen: Vec::new(alloc),
        },
        stops: Vec::new(alloc),
        steppers: no_steps(alloc, plan.sessions.as_slice().len())?,
        start: FirstBoard::of(board),
        first: FirstList::of(answerer),
        history: Heard::nothing(),
    })
}

/// So many empty logs.
fn no_logs(alloc: Global, count: usize) -> Result<Vec<Items<Entry>>, AllocError>
    ensures count { IfOk result (λ v. length v.items ≡ count) }
    ensures empty { IfOk result (λ v. (b : ℕ) → log_at v.items b ≡ []) }
{
    let mut logs = Vec::new(alloc);
    'logs: for _ in 0..count {
        logs.push(Items::of(Vec::new(alloc)))?;
    }
    Ok(logs)
}

/// So many sessions without a step.
fn no_steps(alloc: Global, count: usize) -> Result<Vec<Stepper>, AllocError>
    ensures count { IfOk result (λ v. length v.items ≡ count) }
    ensures none { IfOk result (λ v. (x : ℕ) → slice_index_or v.items x idle ≡ idle) }
{
    let mut steps = Vec::new(alloc);
    'steps: for _ in 0..count {
        steps.push(Stepper::new())?;
    }
    Ok(steps)
}

/// The record of what was run and kept.
fn record(ran: Ran, h: Progress) -> ContextRecord
    ensures { IsKeptWith ran h result }
{
    let Progress { kept, stops, .. } = h;
    ContextRecord {
        output: ran.output,
        end: ran.end,
        used: ran.used,
        events: ran.events,
        logs: Items::of(kept.logs),
        seen: Items::of(kept.seen),
        stops: Items::of(stops),
    }
}

/// Lets the answerer go.
fn leave<A: Answerer>(_answerer: &mut A)
    ensures list { A.list _answerer.new ≡ A.list _answerer.old }
    ensures base { A.base _answerer.new ≡ A.base _answerer.old }
{}
