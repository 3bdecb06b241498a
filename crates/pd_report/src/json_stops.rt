//! Suspensions as JSON values.
ghost use Rattle.std.specs.Prelude.{◌≡◌, map, IfOk};
ghost use Rattle.serde_json.specs.Data.{string};
ghost use Rattle.serde_json.specs.View.{view};
ghost use Rattle.pd_report.specs.Stops.{resume_text};
ghost use Rattle.pd_report.specs.Json.{list_json, act_json, reason_json, variable_json, frame_json, stop_object, stop_json};

use crate::acts::push_act;
use crate::events::{push_position, push_value};
use crate::json::push;
use crate::stops::{anchor_name, push_reason, push_resume, root_name};
use pd_board::ActResult;
use pd_plan::Resume;
use pd_suspend::{FrameView, Reason, Suspension, Variable};
use pd_tree::Program;
use pd_values::Text;
use serde_json::{Value, json};
use std::alloc::{AllocError, Global};

// The acts of an answer, as the text has them.
fn acts_value(alloc: Global, acts: &[ActResult]) -> Result<Value, AllocError>
    ensures { IfOk result (λ v. view v ≡ list_json (map act_json acts.now)) }
{
    let mut values = Vec::new(alloc);
    for act in acts {
        let mut text = String::new(alloc);
        push_act(&mut text, *act)?;
        push(&mut values, Value::String(text))?;
    }
    Ok(Value::Array(values))
}

fn reasons_value(alloc: Global, reasons: &[Reason]) -> Result<Value, AllocError>
    ensures { IfOk result (λ v. view v ≡ list_json (map reason_json reasons.now)) }
{
    let mut values = Vec::new(alloc);
    for reason in reasons {
        let mut text = String::new(alloc);
        push_reason(&mut text, *reason)?;
        push(&mut values, Value::String(text))?;
    }
    Ok(Value::Array(values))
}

// A variable with its value.
fn variable_value(alloc: Global, names: &[Text], variable: &Variable) -> Result<Value, AllocError>
    ensures { IfOk result (λ v. view v ≡ variable_json names.now variable.now) }
{
    let mut shown = String::new(alloc);
    push_value(&mut shown, names, &variable.value)?;
    let name = variable.name.as_str();
    let shown = Value::String(shown);
    json!(in alloc; [name, shown])
}

fn variables_value(
    alloc: Global,
    names: &[Text],
    variables: &[Variable],
) -> Result<Value, AllocError>
    ensures { IfOk result (λ v. view v ≡ list_json (map (variable_json names.now) variables.now)) }
{
    let mut values = Vec::new(alloc);
    for variable in variables {
        push(&mut values, variable_value(alloc, names, variable)?)?;
    }
    Ok(Value::Array(values))
}

// A frame with where it stands and its variables.
fn frame_value(alloc: Global, program: &Program, frame: &FrameView) -> Result<Value, AllocError>
    ensures { IfOk result (λ v. view v ≡ frame_json program.now frame.now) }
{
    let root = root_name(program, frame.root);
    let mut position = String::new(alloc);
    push_position(&mut position, program, frame.at)?;
    let position = Value::String(position);
    let variables = variables_value(alloc, program.names(), frame.variables.as_slice())?;
    json!(in alloc; [root, position, variables])
}

fn frames_value(alloc: Global, program: &Program, frames: &[FrameView]) -> Result<Value, AllocError>
    ensures { IfOk result (λ v. view v ≡ list_json (map (frame_json program.now) frames.now)) }
{
    let mut values = Vec::new(alloc);
    for frame in frames {
        push(&mut values, frame_value(alloc, program, frame)?)?;
    }
    Ok(Value::Array(values))
}

// How the run goes on, as the text has it.
fn resume_value(alloc: Global, names: &[Text], resume: &Resume) -> Result<Value, AllocError>
    ensures { IfOk result (λ v. view v ≡ string (resume_text names.now resume.now)) }
{
    let mut text = String::new(alloc);
    push_resume(&mut text, names, resume)?;
    Ok(Value::String(text))
}

// A suspension with these acts, frames, reasons and way to go on.
fn stop_object(
    alloc: Global,
    stop: &Suspension,
    acts: Value,
    frames: Value,
    reasons: Value,
    resume: Value,
) -> Result<Value, AllocError>
    ensures { IfOk result (λ v. view v ≡ stop_object stop.now (view acts) (view frames) (view reasons) (view resume)) }
{
    let anchor = anchor_name(stop.anchor);
    let (answer, event, node, session) = (stop.answer, stop.event, stop.node.0, stop.session);
    json!(in alloc; {"acts": acts, "anchor": anchor, "answer": answer, "event": event, "frames": frames, "node": node, "reasons": reasons, "session": session, "then": resume})
}

// A suspension with its frames, the acts of its answer, and how the run goes on.
fn stop_value(alloc: Global, program: &Program, stop: &Suspension) -> Result<Value, AllocError>
    ensures { IfOk result (λ v. view v ≡ stop_json program.now stop.now) }
{
    let acts = acts_value(alloc, stop.acts.as_slice())?;
    let frames = frames_value(alloc, program, stop.frames.as_slice())?;
    let reasons = reasons_value(alloc, stop.reasons.as_slice())?;
    let resume = resume_value(alloc, program.names(), &stop.resume)?;
    let value = stop_object(alloc, stop, acts, frames, reasons, resume)?;
    Ok(value)
}

/// Suspensions, in order.
pub(crate) fn stops_value(
    alloc: Global,
    program: &Program,
    stops: &[Suspension],
) -> Result<Value, AllocError>
    ensures { IfOk result (λ v. view v ≡ list_json (map (stop_json program.now) stops.now)) }
{
    let mut values = Vec::new(alloc);
    for stop in stops {
        push(&mut values, stop_value(alloc, program, stop)?)?;
    }
    Ok(Value::Array(values))
}
