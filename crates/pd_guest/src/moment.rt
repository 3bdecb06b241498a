//! An event of a context, with what it is served by.
ghost use Rattle.std.specs.Prelude.{◌≡◌, ◌<◌, length, slice_get, Some, IfOk};
ghost use Rattle.pd_machine.specs.Events.{at_of, frame_of};
ghost use Rattle.pd_condition.specs.Truths.{truth_for, truth_of};
ghost use Rattle.pd_guest.specs.Moment.{IsStanding};

use pd_condition::{Truth, holds, resolve};
use pd_machine::{Event, Scene};
use pd_plan::{BindingSpec, Condition, Plan};
use pd_tree::Program;
use pd_values::NodeId;
use std::alloc::{AllocError, Global};
use std::marker::Model;

/// A plan, its program, and an event of a context with the frames at it.
#[derive(Drop)]
pub struct Moment<'a, 's> {
    pub plan: &'a Plan,
    pub program: &'a Program,
    pub event: &'a Event,
    pub scene: &'a Scene<'s>,
}

impl<'a, 's> Model for Moment<'a, 's> {
    ghost use Rattle.std.specs.Coded.{codes};
    ghost use Rattle.pd_plan.specs.contracts.condition.Condition as e;
    ghost use Rattle.pd_guest.specs.Moment.{At};

    ghost Value = { At };

    ghost coded = { Prim.hlevel (codes, e.the_row.coded) };

    ghost view = { λ m. record { plan = m.plan.now; program = m.program.now; told = record { event = m.event.now; scene = m.scene.now } } };
}

/// A binding of the plan.
pub(crate) fn spec_of(plan: &Plan, b: u32) -> &BindingSpec
    requires { b < length plan.now.bindings }
    ensures { slice_get plan.now.bindings b ≡ Some result.now }
{
    &plan.bindings.as_slice()[b as usize]
}

/// What the condition of a binding comes to at an event.
pub(crate) fn truth(
    alloc: Global,
    m: &Moment<'_, '_>,
    spec: &BindingSpec,
) -> Result<Truth, AllocError>
    requires { IsStanding m.now }
    ensures { IfOk result (λ x. x ≡ truth_for spec.now m.now.program m.now.told.scene) }
{
    match spec {
        BindingSpec::Observe(_) | BindingSpec::Pause { .. } => Ok(Truth::True),
        BindingSpec::Break(spec) => match &spec.condition {
            None => Ok(Truth::True),
            Some(condition) => test(alloc, m, condition),
        },
    }
}

/// What a condition comes to at an event.
fn test(alloc: Global, m: &Moment<'_, '_>, condition: &Condition) -> Result<Truth, AllocError>
    requires { IsStanding m.now }
    ensures { IfOk result (λ x. x ≡ truth_of condition.now m.now.program m.now.told.scene) }
{
    let truth = test_at(alloc, condition, m.program, m.event.node, m.scene)?;
    Ok(truth)
}

/// What a condition comes to at a scene whose innermost frame stands at the node. Its names are found among what is seen
/// there.
fn test_at(
    alloc: Global,
    condition: &Condition,
    program: &Program,
    node: NodeId,
    scene: &Scene<'_>,
) -> Result<Truth, AllocError>
    requires node { node < length program.now.nodes }
    requires frame { at_of (frame_of scene.now.frames 0) ≡ Some node }
    ensures { IfOk result (λ x. x ≡ truth_of condition.now program.now scene.now) }
{
    let resolved = resolve(alloc, condition, program, node)?;
    Ok(holds(&resolved, scene))
}
