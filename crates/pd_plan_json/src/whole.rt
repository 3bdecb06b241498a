//! From bytes to a plan.
ghost use Rattle.std.specs.Prelude.{IfOk};
ghost use Rattle.pd_plan.specs.Sound.{IsSound};
ghost use Rattle.serde_json.specs.View.{view};
ghost use Rattle.pd_plan_json.specs.Reading.{Gives, GivesBy};
ghost use Rattle.pd_plan_json.specs.Whole.{data_of, plan_of, plan_at};

use crate::reader::refusal;
use crate::references::check_references;
use crate::tables::plan_in;
use pd_plan::{Plan, PlanRefusal, PlanRule};
use pd_values::Stop;
use serde_json::Value;
use std::alloc::Global;

/// The JSON value of the bytes.
#[tactic(auto, using(crate::proofs::Bytes::data_found, crate::proofs::Bytes::no_data))]
fn value_of(alloc: Global, bytes: &[u8]) -> Result<Value, Stop<PlanRefusal>>
    ensures { GivesBy view result (data_of bytes.now) }
{
    match Value::from_slice(alloc, bytes) {
        Ok(value) => Ok(value),
        Err(e) => {
            if e.is_memory() {
                Err(Stop::Memory)
            } else {
                Err(refusal(alloc, PlanRule::NotJson))
            }
        }
    }
}

/// The plan of the bytes.
#[tactic(auto, unfolding(crate::specs::Whole::plan_at, crate::specs::Whole::plan_of))]
fn plan_from(alloc: Global, bytes: &[u8]) -> Result<Plan, Stop<PlanRefusal>>
    ensures { Gives result (plan_at bytes.now) }
{
    let value = value_of(alloc, bytes)?;
    let plan = plan_in(alloc, &value)?;
    check_references(alloc, &plan)?;
    Ok(plan)
}

/// The plan that the bytes are, as JSON; or the first broken rule with its path, in the order of docs/FORMATS.md.
/// Memory may run out at any point: then `Stop::Memory`.
#[tactic(auto, using(crate::proofs::Refers::plan_is_sound))]
pub fn read_plan(alloc: Global, bytes: &[u8]) -> Result<Plan, Stop<PlanRefusal>>
    ensures exact { Gives result (plan_at bytes.now) }
    ensures sound { IfOk result IsSound }
{
    plan_from(alloc, bytes)
}
