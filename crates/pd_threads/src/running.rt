//! All tasks of a plan beside one another.
ghost use Rattle.std.specs.Prelude.{◌≡◌, ℕ, ◌<◌, length, map, slice_index_or, vec_len, IfOk, OnOk};
ghost use Rattle.std.specs.List.{All};
ghost use Rattle.std.specs.Thread.{IsSync};
ghost use Rattle.pd_shared.specs.Sitting.{Sitting, base_of};
ghost use Rattle.pd_shared.specs.Left.{IsNewcomer};
ghost use Rattle.pd_seats.specs.Shares.{HasFor};
ghost use Rattle.pd_seats.specs.Ran.{AreDone};
ghost use Rattle.pd_threads.specs.Tasks.{CanDo, DidDo};

use crate::work::{HasPlan, PlanWork, Task};
use pd_outside::Gate;
use pd_plan::Plan;
use pd_seats::{Done, Piece, gathered, pieces_for};
use pd_shared::Seat;
use pd_tree::Program;
use std::alloc::{AllocError, Global};
use std::thread::{Threads, for_each_mut};

/// Does each task in a thread of its own, and waits for all of them. It takes no memory.
pub(crate) fn run_pieces<R: Threads + Sync, Q: HasPlan + Sync, G: Gate>(
    rt: &R,
    work: &PlanWork<'_, Q, G>,
    pieces: &mut [Piece<'_, Task>],
)
    requires { (i : ℕ) (d : _) → i < length pieces.old → CanDo (Q.given work.now.plan.now) work.now.program.now (slice_index_or pieces.old i d).own (slice_index_or pieces.old i d).seat }
    ensures len { length pieces.new ≡ length pieces.old }
    ensures base { (i : ℕ) (d : _) → i < length pieces.old → base_of (slice_index_or pieces.new i d).seat ≡ base_of (slice_index_or pieces.old i d).seat }
    ensures did { (i : ℕ) (d : _) → i < length pieces.old → DidDo (Q.given work.now.plan.now) work.now.program.now (slice_index_or pieces.old i d).own (slice_index_or pieces.old i d).seat (slice_index_or pieces.new i d).own (slice_index_or pieces.new i d).seat }
{
    let count = pieces.len();
    if count == 0 {
        return;
    }
    for_each_mut(
        rt,
        pieces,
        count,
        &|_, piece|
            requires { IsSync Q.row × IsSync G.row × CanDo (Q.given work.now.plan.now) work.now.program.now piece.now.own piece.now.seat }
            ensures base { base_of piece.exit.now.seat ≡ base_of piece.entry.now.seat }
            ensures did { DidDo (Q.given work.entry.now.plan.now) work.entry.now.program.now piece.entry.now.own piece.entry.now.seat piece.exit.now.own piece.exit.now.seat }
        { work.work(&mut piece.own, &mut piece.seat) },
    );
}

/// Does the tasks of a plan, in threads of their own and on seats that are split off from the first one, into which they
/// retire at last.
fn run_tasks<R: Threads + Sync, Q: HasPlan + Sync, G: Gate>(
    rt: &R,
    alloc: Global,
    work: &PlanWork<'_, Q, G>,
    first: &mut Seat<'_>,
    tasks: Vec<Task>,
) -> Result<Vec<Done<Task>>, AllocError>
    requires shares { HasFor (vec_len tasks) first.old }
    requires can { All (λ own. (seat : Sitting) → IsNewcomer first.old seat → CanDo (Q.given work.now.plan.now) work.now.program.now own seat) tasks.items }
    ensures shares { OnOk result (first.new.token.pass.view.seat_share ≡ first.old.token.pass.view.seat_share) }
    ensures done { IfOk result (λ done. AreDone (DidDo (Q.given work.now.plan.now) work.now.program.now) first.old first.new tasks.items (map (λ (d : _). d.own) done.items) (map (λ (d : _). d.sights) done.items)) }
{
    let mut pieces = pieces_for(alloc, first, tasks)?;
    run_pieces(rt, work, pieces.as_mut_slice());
    let done = gathered(alloc, pieces, first)?;
    Ok(done)
}

/// Does the tasks of a plan, in threads of their own and on seats that are split off from the first one, into which they
/// retire at last.
pub fn run_all<R: Threads + Sync, G: Gate>(
    rt: &R,
    alloc: Global,
    plan: &Plan,
    program: &Program,
    gate: &G,
    first: &mut Seat<'_>,
    tasks: Vec<Task>,
) -> Result<Vec<Done<Task>>, AllocError>
    requires shares { HasFor (vec_len tasks) first.old }
    requires can { All (λ own. (seat : Sitting) → IsNewcomer first.old seat → CanDo plan.now program.now own seat) tasks.items }
    ensures shares { OnOk result (first.new.token.pass.view.seat_share ≡ first.old.token.pass.view.seat_share) }
    ensures done { IfOk result (λ done. AreDone (DidDo plan.now program.now) first.old first.new tasks.items (map (λ (d : _). d.own) done.items) (map (λ (d : _). d.sights) done.items)) }
{
    run_tasks(
        rt,
        alloc,
        &PlanWork {
            plan,
            program,
            gate,
        },
        first,
        tasks,
    )
}
