//! What the sessions were answered.
ghost use Rattle.std.specs.Prelude.{◌≡◌, map, vec_len, IfOk};

use pd_board::ActResult;
use pd_session::{ActionResult, SessionRecord};
use pd_values::Items;
use std::alloc::{AllocError, Global};

/// The record of each session: what its attaches before the run were answered, and what its actions were. Condition:
/// there are as many of both. The only error is `AllocError`, where memory runs out.
pub(crate) fn session_records(
    alloc: Global,
    befores: Vec<Vec<ActResult>>,
    actions: Vec<Vec<ActionResult>>,
) -> Result<Vec<SessionRecord>, AllocError>
    requires { vec_len befores ≡ vec_len actions }
    ensures before { IfOk result (λ v. map (λ r. r.before) v.items ≡ map (λ (x : _). x.items) befores.items) }
    ensures actions { IfOk result (λ v. map (λ r. r.actions) v.items ≡ map (λ (x : _). x.items) actions.items) }
{
    let mut earlier_befores = befores;
    let mut earlier_actions = actions;
    let Some(before) = earlier_befores.pop() else {
        return Ok(Vec::new(alloc));
    };
    let Some(results) = earlier_actions.pop() else {
        unreachable!();
    };
    let mut records = session_records(alloc, earlier_befores, earlier_actions)?;
    records.push(SessionRecord {
        before: Items::of(before),
        actions: Items::of(results),
    })?;
    Ok(records)
}
