//! A workload.
ghost use Rattle.std.specs.Prelude.{◌≡◌, length, IfOk};
ghost use Rattle.std.specs.List.{AllByRecursion};
ghost use Rattle.std.specs.Str.{IsUtf8};
ghost use Rattle.pd_plan.specs.Sound.{IsSound};
ghost use Rattle.pd_gen.specs.Workload.{workload_plan, workload_sources};

use crate::plan::workload_plan;
use crate::sources::workload_sources;
use pd_plan::Plan;
use pd_sections::Source;
use pd_values::Items;
use std::alloc::{AllocError, Global};

/// A workload: its plan, and the sources of the plan in their order.
#[derive(Drop)]
pub struct Generated {
    pub plan: Plan,
    pub sources: Items<Source>,
}

/// The workload of a number: four contexts that each call 200 functions in a chain, 50 times, and two observers. The plan
/// is the same for all numbers; the sources differ for different remainders of seven. The only error is `AllocError`,
/// where memory runs out.
pub fn make(alloc: Global, number: u32) -> Result<Generated, AllocError>
    // The plan is the workload's, and sound, as a run asks.
    ensures plan { IfOk result (λ made. made.plan ≡ workload_plan) }
    ensures sound { IfOk result (λ made. IsSound made.plan) }
    // The sources are the workload's of this number, one for each of the plan's, and UTF-8.
    ensures sources { IfOk result (λ made. made.sources ≡ workload_sources number) }
    ensures each { IfOk result (λ made. length made.sources ≡ length made.plan.sources) }
    ensures texts { IfOk result (λ made. AllByRecursion (λ source. IsUtf8 source.bytes) made.sources) }
{
    let plan = workload_plan(alloc)?;
    let sources = workload_sources(alloc, number)?;
    Ok(Generated { plan, sources })
}
