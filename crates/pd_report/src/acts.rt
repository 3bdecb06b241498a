//! The texts of what acts and waits were answered.
ghost use Rattle.std.specs.Prelude.{◌≡◌, ◌++◌, string_bytes, OnOk, flat_map};
ghost use Rattle.pd_report.specs.Stops.{attach_name, dispose_text, toggle_text, act_text, act_line, waited_text, action_text, action_line};

use pd_board::{ActResult, Attach, Dispose, Toggle, Waited};
use pd_session::ActionResult;
use std::alloc::AllocError;

/// The word of an attach's answer.
pub(crate) fn attach_name(answer: Attach) -> &'static str
    ensures { result.now ≡ attach_name answer }
{
    match answer {
        Attach::Attached => "attached",
        Attach::Already => "already",
        Attach::Gone => "gone",
    }
}

fn push_dispose(text: &mut String, answer: Dispose) -> Result<(), AllocError>
    ensures { OnOk result (string_bytes text.new ≡ string_bytes text.old ++ dispose_text answer) }
{
    match answer {
        Dispose::Disposed { count } => write!(text, "disposed {count}"),
        Dispose::Already => text.push_str("already"),
    }
}

fn push_toggle(text: &mut String, answer: Toggle) -> Result<(), AllocError>
    ensures { OnOk result (string_bytes text.new ≡ string_bytes text.old ++ toggle_text answer) }
{
    match answer {
        Toggle::At { count } => write!(text, "at {count}"),
        Toggle::Already => text.push_str("already"),
        Toggle::Gone => text.push_str("gone"),
    }
}

/// An act with its binding and what it was answered.
pub(crate) fn push_act(text: &mut String, act: ActResult) -> Result<(), AllocError>
    ensures { OnOk result (string_bytes text.new ≡ string_bytes text.old ++ act_text act) }
{
    match act {
        ActResult::Attached(binding, answer) => {
            write!(text, "attach {binding} {}", attach_name(answer))
        }
        ActResult::Disposed(binding, answer) => {
            write!(text, "dispose {binding} ")?;
            push_dispose(text, answer)
        }
        ActResult::Enabled(binding, answer) => {
            write!(text, "enable {binding} ")?;
            push_toggle(text, answer)
        }
        ActResult::Disabled(binding, answer) => {
            write!(text, "disable {binding} ")?;
            push_toggle(text, answer)
        }
    }
}

fn push_act_line(text: &mut String, act: ActResult) -> Result<(), AllocError>
    ensures { OnOk result (string_bytes text.new ≡ string_bytes text.old ++ act_line act) }
{
    text.push_str("  ")?;
    push_act(text, act)?;
    text.push_str("\n")
}

/// Acts, a line for each.
pub(crate) fn push_acts(text: &mut String, acts: &[ActResult]) -> Result<(), AllocError>
    ensures { OnOk result (string_bytes text.new ≡ string_bytes text.old ++ flat_map act_line acts.now) }
{
    for act in acts {
        push_act_line(text, *act)?;
    }
    Ok(())
}

fn push_waited(text: &mut String, waited: Waited) -> Result<(), AllocError>
    ensures { OnOk result (string_bytes text.new ≡ string_bytes text.old ++ waited_text waited) }
{
    match waited {
        Waited::Reached { n } => write!(text, "reached {n}"),
        Waited::AllEnded => text.push_str("ended"),
        Waited::Late { n } => write!(text, "late {n}"),
    }
}

/// An action of a session's script, with what came of it.
pub(crate) fn push_action(text: &mut String, action: ActionResult) -> Result<(), AllocError>
    ensures { OnOk result (string_bytes text.new ≡ string_bytes text.old ++ action_text action) }
{
    match action {
        ActionResult::Act(act) => push_act(text, act),
        ActionResult::Awaited(count, waited) => {
            write!(text, "await {count} ")?;
            push_waited(text, waited)
        }
    }
}

fn push_action_line(text: &mut String, action: ActionResult) -> Result<(), AllocError>
    ensures { OnOk result (string_bytes text.new ≡ string_bytes text.old ++ action_line action) }
{
    text.push_str("  ")?;
    push_action(text, action)?;
    text.push_str("\n")
}

/// Actions, a line for each.
pub(crate) fn push_actions(text: &mut String, actions: &[ActionResult]) -> Result<(), AllocError>
    ensures { OnOk result (string_bytes text.new ≡ string_bytes text.old ++ flat_map action_line actions.now) }
{
    for action in actions {
        push_action_line(text, *action)?;
    }
    Ok(())
}
