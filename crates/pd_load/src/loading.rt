//! From sources to a program.
ghost use Rattle.std.specs.Prelude.{◌≡◌, length, IfOk, IfErr};
ghost use Rattle.pd_plan.specs.Sound.{IsSound};
ghost use Rattle.pd_load.specs.declared.refusal.LoadRefusal.{LoadRefusal};
ghost use Rattle.pd_load.specs.Loading.{IsLoaded, IsFirstMisspelled, IsRefused, StopsFor, most_nodes};

use crate::exports::{entries_of, exports_of};
use crate::found::found_for;
use crate::names::tables_of;
use crate::refusal::LoadRefusal;
use crate::sources::trees_of;
use pd_link::link;
use pd_plan::Plan;
use pd_sections::{Source, Stop};
use pd_tree::Program;
use std::alloc::Global;

/// The linked program of a plan's sources, or the first refusal: the tokens and the tree of each source in order, at most
/// 65,536 nodes together; then the exports in order, each of which must have a name that no earlier one has, and name an
/// item of its source; then the entries of the contexts in order.
///
/// `sources` are the plan's, in its order. Memory may run out at any point: then `Stop::Memory`.
pub fn load(alloc: Global, sources: &[Source], plan: &Plan) -> Result<Program, Stop<LoadRefusal>>
    requires sound { IsSound plan.now }
    requires each { length sources.now ≡ length plan.now.sources }
    ensures loaded { IfOk result (IsLoaded plan.now sources.now) }
    ensures spelled { IfOk result (λ _. (r : LoadRefusal) → IsFirstMisspelled 0 most_nodes plan.now.sources sources.now r → ⊥) }
    ensures complete { IfOk result (λ _. (r : LoadRefusal) → IsRefused plan.now sources.now r → ⊥) }
    ensures refused { IfErr result (StopsFor plan.now sources.now) }
{
    let specs = plan.sources.as_slice();
    let trees = trees_of(alloc, specs, sources)?;
    let tables = tables_of(alloc, specs, trees.as_slice())?;
    let exports = exports_of(alloc, plan.exports.as_slice(), tables.as_slice())?;
    let entries = entries_of(alloc, plan.contexts.as_slice(), tables.as_slice())?;
    let found = found_for(alloc, specs, trees.as_slice(), tables.as_slice(), &exports)?;
    let program = link(alloc, trees, found, entries)?;
    Ok(program)
}
