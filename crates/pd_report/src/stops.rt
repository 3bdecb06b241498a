//! The texts of suspensions.
ghost use Rattle.std.specs.Prelude.{◌≡◌, ◌++◌, string_bytes, OnOk, flat_map};
ghost use Rattle.pd_tree.specs.Kinds.{root_name_of};
ghost use Rattle.pd_tree.specs.Program.{node_at, item_names};
ghost use Rattle.pd_report.specs.Lines.{numbered};
ghost use Rattle.pd_report.specs.Stops.{anchor_name, reason_text, next_reason, reasons_text, variable_text, frame_line, resume_text, stop_place, stop_line, then_line, stop_text};

use crate::acts::push_acts;
use crate::events::{push_position, push_value};
use pd_plan::Resume;
use pd_suspend::{Anchor, FrameView, Reason, Suspension, Variable};
use pd_tree::{Kind, Program};
use pd_values::{NodeId, Text};
use std::alloc::AllocError;

/// On which side of its node a context is suspended.
pub(crate) fn anchor_name(anchor: Anchor) -> &'static str
    ensures { result.now ≡ anchor_name anchor }
{
    match anchor {
        Anchor::Before => "before",
        Anchor::After => "after",
    }
}

/// Why a session is suspended.
pub(crate) fn push_reason(text: &mut String, reason: Reason) -> Result<(), AllocError>
    ensures { OnOk result (string_bytes text.new ≡ string_bytes text.old ++ reason_text reason) }
{
    match reason {
        Reason::Hit {
            binding,
            place,
            cannot,
        } => {
            write!(text, "hit {binding}@{place}")?;
            text.push_str(if cannot { "?" } else { "" })
        }
        Reason::Step => text.push_str("step"),
        Reason::Halt => text.push_str("halt"),
    }
}

// Further reasons, each behind a comma.
fn push_further(text: &mut String, reasons: &[Reason]) -> Result<(), AllocError>
    ensures { OnOk result (string_bytes text.new ≡ string_bytes text.old ++ flat_map next_reason reasons.now) }
{
    for reason in reasons {
        text.push_str(",")?;
        push_reason(text, *reason)?;
    }
    Ok(())
}

// Reasons, with commas between them.
fn push_reasons(text: &mut String, reasons: &[Reason]) -> Result<(), AllocError>
    ensures { OnOk result (string_bytes text.new ≡ string_bytes text.old ++ reasons_text reasons.now) }
{
    match reasons.split_first() {
        Some((reason, further)) => {
            push_reason(text, *reason)?;
            push_further(text, further)
        }
        None => Ok(()),
    }
}

// Variables with their values, each behind a space.
fn push_variables(
    text: &mut String,
    names: &[Text],
    variables: &[Variable],
) -> Result<(), AllocError>
    ensures { OnOk result (string_bytes text.new ≡ string_bytes text.old ++ flat_map (variable_text names.now) variables.now) }
{
    for variable in variables {
        write!(text, " {}=", variable.name.as_str())?;
        push_value(text, names, &variable.value)?;
    }
    Ok(())
}

/// The name of the function or procedure that a node is; it is empty for another node.
pub(crate) fn root_name(program: &Program, root: NodeId) -> &str
    ensures { result.now ≡ root_name_of (node_at program.now root).kind }
{
    if root.0 >= program.nodes() {
        return "";
    }
    match program.kind(root) {
        Kind::SlFunction { name, .. } | Kind::PlProcedure { name, .. } => name.as_str(),
        _ => "",
    }
}

fn push_frame(
    text: &mut String,
    program: &Program,
    number: usize,
    frame: &FrameView,
) -> Result<(), AllocError>
    ensures { OnOk result (string_bytes text.new ≡ string_bytes text.old ++ frame_line program.now number frame.now) }
{
    write!(text, "  frame {number} {} ", root_name(program, frame.root))?;
    push_position(text, program, frame.at)?;
    push_variables(text, program.names(), frame.variables.as_slice())?;
    text.push_str("\n")
}

fn push_frames(text: &mut String, program: &Program, frames: &[FrameView]) -> Result<(), AllocError>
    ensures { OnOk result (string_bytes text.new ≡ string_bytes text.old ++ numbered (frame_line program.now) 0 frames.now) }
{
    for (number, frame) in frames.iter().enumerate() {
        push_frame(text, program, number, frame)?;
    }
    Ok(())
}

/// How the run goes on, where `names` are those of the items.
pub(crate) fn push_resume(
    text: &mut String,
    names: &[Text],
    resume: &Resume,
) -> Result<(), AllocError>
    ensures { OnOk result (string_bytes text.new ≡ string_bytes text.old ++ resume_text names.now resume.now) }
{
    match resume {
        Resume::Continue => text.push_str("continue"),
        Resume::Into(n) => write!(text, "into {n}"),
        Resume::Over(n) => write!(text, "over {n}"),
        Resume::Out(n) => write!(text, "out {n}"),
        Resume::Reenter(k) => write!(text, "reenter {k}"),
        Resume::Return(k, value) => {
            write!(text, "return {k} ")?;
            push_value(text, names, value)
        }
        Resume::Kill => text.push_str("kill"),
    }
}

// Where a suspension is: its event, its session, and its node.
fn push_stop_place(
    text: &mut String,
    program: &Program,
    stop: &Suspension,
) -> Result<(), AllocError>
    ensures { OnOk result (string_bytes text.new ≡ string_bytes text.old ++ stop_place program.now stop.now) }
{
    write!(text, "stop {} session {} ", stop.event, stop.session)?;
    write!(text, "{} {} ", anchor_name(stop.anchor), stop.node.0)?;
    push_position(text, program, stop.node)
}

fn push_stop_line(text: &mut String, program: &Program, stop: &Suspension) -> Result<(), AllocError>
    ensures { OnOk result (string_bytes text.new ≡ string_bytes text.old ++ stop_line program.now stop.now) }
{
    push_stop_place(text, program, stop)?;
    write!(text, " answer {} ", stop.answer)?;
    push_reasons(text, stop.reasons.as_slice())?;
    text.push_str("\n")
}

fn push_then_line(text: &mut String, program: &Program, stop: &Suspension) -> Result<(), AllocError>
    ensures { OnOk result (string_bytes text.new ≡ string_bytes text.old ++ then_line program.now stop.now) }
{
    text.push_str("  then ")?;
    push_resume(text, program.names(), &stop.resume)?;
    text.push_str("\n")
}

fn push_stop(text: &mut String, program: &Program, stop: &Suspension) -> Result<(), AllocError>
    ensures { OnOk result (string_bytes text.new ≡ string_bytes text.old ++ stop_text program.now stop.now) }
{
    push_stop_line(text, program, stop)?;
    push_frames(text, program, stop.frames.as_slice())?;
    push_acts(text, stop.acts.as_slice())?;
    push_then_line(text, program, stop)
}

/// Suspensions, each with its frames, the acts of its answer, and how the run goes on.
pub(crate) fn push_stops(
    text: &mut String,
    program: &Program,
    stops: &[Suspension],
) -> Result<(), AllocError>
    ensures { OnOk result (string_bytes text.new ≡ string_bytes text.old ++ flat_map (stop_text program.now) stops.now) }
{
    for stop in stops {
        push_stop(text, program, stop)?;
    }
    Ok(())
}
