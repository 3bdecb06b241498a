//! Which bindings are steady.
ghost use Rattle.std.specs.Prelude.{◌≡◌, ◌==◌, not};
ghost use Rattle.std.specs.List.{list_all, list_any};
ghost use Rattle.pd_break.specs.Hits.{is_observer};
ghost use Rattle.pd_record.specs.Logs.{has_binding};
ghost use Rattle.pd_steady.specs.Steady.{may_stop, action_may_stop, answer_spares, script_spares, is_attached_before, is_steady};

use pd_plan::{Act, Action, Answer, BindingSpec, Plan, Script};

// Whether an act disposes the binding or switches it off.
fn may_stop(binding: u32, act: Act) -> bool
    ensures { result ≡ may_stop binding act }
{
    match act {
        Act::Dispose(other) | Act::Disable(other) => other == binding,
        _ => false,
    }
}

fn action_may_stop(binding: u32, action: Action) -> bool
    ensures { result ≡ action_may_stop binding action }
{
    match action {
        Action::Act(act) => may_stop(binding, act),
        _ => false,
    }
}

fn actions_spare(binding: u32, actions: &[Action]) -> bool
    ensures { result ≡ list_all (λ a. not (action_may_stop binding a)) actions.now }
{
    actions
        .iter()
        .all(|action| !action_may_stop(binding, *action))
}

fn acts_spare(binding: u32, acts: &[Act]) -> bool
    ensures { result ≡ list_all (λ a. not (may_stop binding a)) acts.now }
{
    acts.iter().all(|act| !may_stop(binding, *act))
}

fn answers_spare(binding: u32, answers: &[Answer]) -> bool
    ensures { result ≡ list_all (answer_spares binding) answers.now }
{
    answers
        .iter()
        .all(|answer| acts_spare(binding, answer.first.as_slice()))
}

// Whether no action and no answer of a script disposes the binding or switches it off.
fn script_spares(binding: u32, script: &Script) -> bool
    ensures { result ≡ script_spares binding script.now }
{
    actions_spare(binding, script.actions.as_slice())
        && answers_spare(binding, script.answers.as_slice())
}

fn scripts_spare(binding: u32, scripts: &[Script]) -> bool
    ensures { result ≡ list_all (script_spares binding) scripts.now }
{
    scripts.iter().all(|script| script_spares(binding, script))
}

fn is_listed(binding: u32, before: &[u32]) -> bool
    ensures { result ≡ list_any (λ x. x == binding) before.now }
{
    before.iter().any(|other| *other == binding)
}

// Whether a session attaches the binding before the run.
fn is_attached_before(binding: u32, scripts: &[Script]) -> bool
    ensures { result ≡ list_any (λ s. list_any (λ x. x == binding) s.before) scripts.now }
{
    scripts
        .iter()
        .any(|script| is_listed(binding, script.before.as_slice()))
}

fn is_observer(plan: &Plan, binding: u32) -> bool
    ensures { result ≡ has_binding plan.now binding is_observer }
{
    matches!(
        plan.bindings.get(binding as usize),
        Some(BindingSpec::Observe(_))
    )
}

/// Whether the plan's binding of this number is an observer that a session attaches before the run, and that nothing in the
/// plan disposes or switches off. It takes no memory.
pub(crate) fn is_steady(plan: &Plan, binding: u32) -> bool
    ensures { result ≡ is_steady plan.now binding }
{
    let scripts = plan.sessions.as_slice();
    is_observer(plan, binding)
        && (is_attached_before(binding, scripts) && scripts_spare(binding, scripts))
}
