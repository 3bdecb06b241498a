//! The pieces of work of a plan: its contexts, and the actions of its sessions.

ghost use Rattle.std.specs.Prelude.{◌≡◌};
ghost use Rattle.pd_plan.specs.declared.plan.Plan.{Plan as Planned};
ghost use Rattle.pd_shared.specs.Sitting.{base_of};
ghost use Rattle.pd_threads.specs.Tasks.{CanDo, DidDo};

use pd_guest::run_context;
use pd_outside::Gate;
use pd_plan::Plan;
use pd_session::{ActionResult, run_script};
use pd_shared::Seat;
use pd_suspend::{ContextRecord, ScriptAnswerer};
use pd_tree::Program;
use std::alloc::{AllocError, Global};

/// What there is to do.
#[derive(Drop, Clone, Copy)]
pub enum Work {
    /// The context of this number.
    Context(u32),
    /// The actions of the session of this number.
    Session(u32),
}

/// What came of a task.
#[derive(Drop)]
pub enum Outcome {
    /// It wasn't done yet.
    Waiting,
    /// The record of a context.
    Ran(ContextRecord),
    /// What the actions of a session gave.
    Acted(Vec<ActionResult>),
    /// Memory ran out.
    Memory,
}

/// A task: what there is to do, and what came of it.
#[derive(Drop)]
pub struct Task {
    pub alloc: Global,
    pub work: Work,
    pub outcome: Outcome,
}

/// What has a plan. That a plan may be shared among threads isn't found where its type is known, so what starts threads
/// has a type parameter in its place.
pub trait HasPlan {
    ghost given: { Self → Planned };

    fn plan(&self) -> &Plan
        ensures { result.now ≡ given self.now };
}

impl HasPlan for Plan {
    ghost given = { λ p. p };

    fn plan(&self) -> &Plan {
        self
    }
}

/// What the tasks of a plan share.
#[derive(Drop)]
pub struct PlanWork<'p, Q, G> {
    pub plan: &'p Q,
    pub program: &'p Program,
    pub gate: &'p G,
}

impl<Q: HasPlan, G: Gate> PlanWork<'_, Q, G> {
    /// Does a task on a seat.
    pub fn work(&self, own: &mut Task, seat: &mut Seat<'_>)
        requires { CanDo (Q.given self.now.plan.now) self.now.program.now own.old seat.old }
        ensures base { base_of seat.new ≡ base_of seat.old }
        ensures did { DidDo (Q.given self.now.plan.now) self.now.program.now own.old seat.old own.new seat.new }
    {
        let alloc = own.alloc;
        let plan = self.plan.plan();
        own.outcome = match own.work {
            Work::Context(number) => {
                let mut answerer = ScriptAnswerer::new(plan);
                match run_context(
                    alloc,
                    self.program,
                    plan,
                    number,
                    seat,
                    &mut answerer,
                    self.gate,
                ) {
                    Ok(record) => Outcome::Ran(record),
                    Err(AllocError) => Outcome::Memory,
                }
            }
            Work::Session(number) => {
                let script = &plan.sessions.as_slice()[number as usize];
                match run_script(alloc, script, number, seat, self.gate) {
                    Ok(results) => Outcome::Acted(results),
                    Err(AllocError) => Outcome::Memory,
                }
            }
        };
    }
}
