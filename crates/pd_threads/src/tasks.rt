//! The tasks of a plan.
ghost use Rattle.std.specs.Prelude.{◌≡◌, length, vec_len, IfOk};
ghost use Rattle.pd_threads.specs.Returned.{AreContextTasks, AreSessionTasks};

use crate::work::{Outcome, Task, Work};
use pd_plan::Script;
use std::alloc::{AllocError, Global};

/// A task for each of so many contexts, by their numbers.
pub fn context_tasks(alloc: Global, count: u32) -> Result<Vec<Task>, AllocError>
    ensures are { IfOk result (λ tasks. AreContextTasks 0 tasks.items) }
    ensures len { IfOk result (λ tasks. length tasks.items ≡ count) }
{
    let mut tasks = Vec::new(alloc);
    for c in 0..count {
        tasks.push(Task {
            alloc,
            work: Work::Context(c),
            outcome: Outcome::Waiting,
        })?;
    }
    Ok(tasks)
}

/// A task for the actions of each of these sessions, so many, by their numbers.
pub fn session_tasks(alloc: Global, scripts: &[Script], count: u32) -> Result<Vec<Task>, AllocError>
    requires { length scripts.now ≡ count }
    ensures { IfOk result (λ tasks. AreSessionTasks 0 scripts.now tasks.items) }
{
    let mut tasks = Vec::new(alloc);
    for s in 0..count {
        tasks.push(Task {
            alloc,
            work: Work::Session(s),
            outcome: Outcome::Waiting,
        })?;
    }
    Ok(tasks)
}
