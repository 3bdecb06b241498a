//! What is done in threads.
ghost use Rattle.std.specs.Prelude.{IfOk};
ghost use Rattle.pd_plan.specs.Sound.{IsSound};
ghost use Rattle.pd_host.specs.Beginning.{AreTasksOf};

use pd_plan::Plan;
use pd_threads::{Task, context_tasks, session_tasks};
use std::alloc::{AllocError, Global};

/// A task for each context of the plan and then for each session, in order.
pub(crate) fn tasks_of(alloc: Global, plan: &Plan) -> Result<Vec<Task>, AllocError>
    requires { IsSound plan.now }
    ensures { IfOk result (λ tasks. AreTasksOf plan.now tasks.items) }
{
    let contexts = plan.contexts.as_slice().len() as u32;
    let scripts = plan.sessions.as_slice();
    let mut tasks = context_tasks(alloc, contexts)?;
    let mut sessions = session_tasks(alloc, scripts, scripts.len() as u32)?;
    tasks.append(&mut sessions)?;
    Ok(tasks)
}
