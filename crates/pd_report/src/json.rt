//! The JSON transcript of a report.
ghost use Rattle.std.specs.Prelude.{◌≡◌, ◌++◌, ◌∷◌, [], true, slice_get, map, flat_map, IfOk, OnOk, string_bytes};
ghost use Rattle.serde_json.specs.View.{view};
ghost use Rattle.pd_log.specs.Merging.{PlacesDiffer};
ghost use Rattle.pd_report.specs.Logs.{entries_of, log_of, PlacesAreApart};
ghost use Rattle.pd_report.specs.Json.{list_json, numbered_json, detail_json, entry_json, kind_word, line_json, binding_json, entry_of, source_of, context_json, before_json, action_json, session_json, report_json, json_of};

use crate::acts::{attach_name, push_action};
use crate::events::{kind_name, push_cause, push_end, push_value};
use crate::json_stops::stops_value;
use crate::logs::{log_in, merged_log};
use crate::transcript::{answers_of, source_name, state_name, tally_of};
use pd_board::{ActResult, BindingTally};
use pd_break::{Resolved, resolve};
use pd_log::Entry;
use pd_machine::EventKind;
use pd_plan::{BindingSpec, Plan};
use pd_run::Report;
use pd_session::{ActionResult, SessionRecord};
use pd_suspend::ContextRecord;
use pd_tree::Program;
use pd_values::Text;
use serde_json::{Value, json};
use std::alloc::{AllocError, Global};

// What a Return gave, and why a Leave came.
fn detail(alloc: Global, names: &[Text], kind: &EventKind) -> Result<Value, AllocError>
    ensures { IfOk result (λ v. view v ≡ detail_json names.now kind.now) }
{
    match kind {
        EventKind::Enter => Ok(Value::Null),
        EventKind::Return(value) => {
            let mut text = String::new(alloc);
            push_value(&mut text, names, value)?;
            Ok(Value::String(text))
        }
        EventKind::Leave(cause) => {
            let mut text = String::new(alloc);
            push_cause(&mut text, *cause)?;
            Ok(Value::String(text))
        }
    }
}

// An event in the log.
fn entry_value(alloc: Global, names: &[Text], entry: &Entry) -> Result<Value, AllocError>
    ensures { IfOk result (λ v. view v ≡ entry_json names.now entry.now) }
{
    let detail = detail(alloc, names, &entry.kind)?;
    let (context, event, place, node) = (entry.context, entry.event, entry.place, entry.node.0);
    json!(in alloc; [context, event, place, kind_name(&entry.kind), node, detail])
}

/// One value more.
pub(crate) fn push(values: &mut Vec<Value>, value: Value) -> Result<(), AllocError>
    ensures { OnOk result (map view values.new.items ≡ map view values.old.items ++ view value ∷ []) }
{
    values.push(value)?;
    Ok(())
}

// The entries of a log, after others.
fn push_log(
    values: &mut Vec<Value>,
    alloc: Global,
    names: &[Text],
    log: &[Entry],
) -> Result<(), AllocError>
    ensures { OnOk result (map view values.new.items ≡ map view values.old.items ++ map (entry_json names.now) log.now) }
{
    for entry in log {
        push(values, entry_value(alloc, names, entry)?)?;
    }
    Ok(())
}

// The logs of a binding, context by context.
fn push_logs(
    values: &mut Vec<Value>,
    alloc: Global,
    names: &[Text],
    contexts: &[ContextRecord],
    binding: usize,
) -> Result<(), AllocError>
    ensures { OnOk result (map view values.new.items ≡ map view values.old.items ++ map (entry_json names.now) (entries_of binding contexts.now)) }
{
    for context in contexts {
        push_log(values, alloc, names, log_in(context, binding))?;
    }
    Ok(())
}

// The log of a binding, merged or context by context.
fn log_values(
    alloc: Global,
    names: &[Text],
    contexts: &[ContextRecord],
    binding: usize,
    merged: bool,
) -> Result<Vec<Value>, AllocError>
    requires { merged ≡ true → PlacesDiffer (entries_of binding contexts.now) }
    ensures { IfOk result (λ values. map view values.items ≡ map (entry_json names.now) (log_of merged binding contexts.now)) }
{
    let mut values = Vec::new(alloc);
    if merged {
        let log = merged_log(alloc, contexts, binding)?;
        push_log(&mut values, alloc, names, log.as_slice())?;
    } else {
        push_logs(&mut values, alloc, names, contexts, binding)?;
    }
    Ok(values)
}

fn kind_word(binding: &BindingSpec) -> &'static str
    ensures { result.now ≡ kind_word binding.now }
{
    match binding {
        BindingSpec::Observe(_) => "observe",
        BindingSpec::Break(_) => "break",
        BindingSpec::Pause { .. } => "pause",
    }
}

// The line on which a breakpoint stops.
fn line_value(program: &Program, binding: &BindingSpec) -> Value
    ensures { view result ≡ line_json program.now binding.now }
{
    match binding {
        BindingSpec::Break(spec) => match resolve(program, spec.source, spec.line) {
            Resolved::Line(line) => Value::from(line),
            Resolved::Unresolved => Value::Null,
        },
        _ => Value::Null,
    }
}

fn binding_value(
    alloc: Global,
    program: &Program,
    report: &Report,
    merged: bool,
    number: usize,
    binding: &BindingSpec,
) -> Result<Value, AllocError>
    requires { merged ≡ true → PlacesAreApart report.now }
    ensures { IfOk result (λ v. view v ≡ binding_json program.now report.now merged number binding.now) }
{
    let BindingTally { state, count } = tally_of(report.tally.bindings(), number);
    let contexts = report.contexts.as_slice();
    let log = Value::Array(log_values(alloc, program.names(), contexts, number, merged)?);
    let line = line_value(program, binding);
    let kind = kind_word(binding);
    let state = state_name(state);
    json!(in alloc; {"count": count, "kind": kind, "line": line, "log": log, "state": state})
}

fn bindings_value(
    alloc: Global,
    program: &Program,
    report: &Report,
    merged: bool,
    bindings: &[BindingSpec],
) -> Result<Value, AllocError>
    requires { merged ≡ true → PlacesAreApart report.now }
    ensures { IfOk result (λ v. view v ≡ list_json (numbered_json (binding_json program.now report.now merged) 0 bindings.now)) }
{
    let mut values = Vec::new(alloc);
    for (number, binding) in bindings.iter().enumerate() {
        push(
            &mut values,
            binding_value(alloc, program, report, merged, number, binding)?,
        )?;
    }
    Ok(Value::Array(values))
}

// What a context starts with.
fn entry_of(plan: &Plan, context: usize) -> &str
    ensures { result.now ≡ entry_of (slice_get plan.now.contexts context) }
{
    match plan.contexts.get(context) {
        Some(spec) => spec.entry.as_str(),
        None => "",
    }
}

// The name of a context's source.
fn source_of(plan: &Plan, context: usize) -> &str
    ensures { result.now ≡ source_of plan.now (slice_get plan.now.contexts context) }
{
    match plan.contexts.get(context) {
        Some(spec) => source_name(plan, spec.source),
        None => "",
    }
}

// A context with its output and its end.
fn context_value(
    alloc: Global,
    plan: &Plan,
    program: &Program,
    number: usize,
    context: &ContextRecord,
) -> Result<Value, AllocError>
    ensures { IfOk result (λ v. view v ≡ context_json plan.now program.now number context.now) }
{
    let mut end = String::new(alloc);
    push_end(&mut end, program.names(), &context.end)?;
    let end = Value::String(end);
    let (events, fuel) = (context.events, context.used);
    let output = context.output.as_str();
    let entry = entry_of(plan, number);
    let source = source_of(plan, number);
    let stops = stops_value(alloc, program, context.stops.as_slice())?;
    json!(in alloc; {"end": end, "entry": entry, "events": events, "fuel": fuel, "output": output, "source": source, "stops": stops})
}

fn contexts_value(
    alloc: Global,
    plan: &Plan,
    program: &Program,
    contexts: &[ContextRecord],
) -> Result<Value, AllocError>
    ensures { IfOk result (λ v. view v ≡ list_json (numbered_json (context_json plan.now program.now) 0 contexts.now)) }
{
    let mut values = Vec::new(alloc);
    for (number, context) in contexts.iter().enumerate() {
        push(
            &mut values,
            context_value(alloc, plan, program, number, context)?,
        )?;
    }
    Ok(Value::Array(values))
}

// The answers to a `before` list.
fn before_value(alloc: Global, before: &[ActResult]) -> Result<Value, AllocError>
    ensures { IfOk result (λ v. view v ≡ list_json (flat_map before_json before.now)) }
{
    let mut values = Vec::new(alloc);
    for result in before {
        if let ActResult::Attached(_, answer) = result {
            let name = String::from_str(alloc, attach_name(*answer))?;
            push(&mut values, Value::String(name))?;
        }
    }
    Ok(Value::Array(values))
}

// The actions of a session, as the text has them.
fn actions_value(alloc: Global, actions: &[ActionResult]) -> Result<Value, AllocError>
    ensures { IfOk result (λ v. view v ≡ list_json (map action_json actions.now)) }
{
    let mut values = Vec::new(alloc);
    for action in actions {
        let mut text = String::new(alloc);
        push_action(&mut text, *action)?;
        push(&mut values, Value::String(text))?;
    }
    Ok(Value::Array(values))
}

// A session with what it was answered.
fn session_value(
    alloc: Global,
    answers: &[u32],
    number: usize,
    session: &SessionRecord,
) -> Result<Value, AllocError>
    ensures { IfOk result (λ v. view v ≡ session_json answers.now number session.now) }
{
    let actions = actions_value(alloc, session.actions.as_slice())?;
    let answers = answers_of(answers, number);
    let before = before_value(alloc, session.before.as_slice())?;
    json!(in alloc; {"actions": actions, "answers": answers, "before": before})
}

fn sessions_value(
    alloc: Global,
    answers: &[u32],
    sessions: &[SessionRecord],
) -> Result<Value, AllocError>
    ensures { IfOk result (λ v. view v ≡ list_json (numbered_json (session_json answers.now) 0 sessions.now)) }
{
    let mut values = Vec::new(alloc);
    for (number, session) in sessions.iter().enumerate() {
        push(&mut values, session_value(alloc, answers, number, session)?)?;
    }
    Ok(Value::Array(values))
}

// A report as a JSON value.
fn report_value(
    alloc: Global,
    report: &Report,
    plan: &Plan,
    program: &Program,
    merged: bool,
) -> Result<Value, AllocError>
    requires { merged ≡ true → PlacesAreApart report.now }
    ensures { IfOk result (λ v. view v ≡ report_json plan.now program.now report.now merged) }
{
    let bindings = bindings_value(alloc, program, report, merged, plan.bindings.as_slice())?;
    let contexts = contexts_value(alloc, plan, program, report.contexts.as_slice())?;
    let sessions = sessions_value(alloc, report.tally.answers(), report.sessions.as_slice())?;
    json!(in alloc; {"bindings": bindings, "contexts": contexts, "sessions": sessions})
}

/// The text of a report as compact JSON, and a line end; with `merged` each log is in the order of places. Condition, with
/// `merged` alone: no two entries of a binding have one place. The only error is `AllocError`, where memory runs out.
/// docs/FORMATS.md has the members.
pub fn json_of(
    alloc: Global,
    report: &Report,
    plan: &Plan,
    program: &Program,
    merged: bool,
) -> Result<Text, AllocError>
    requires { merged ≡ true → PlacesAreApart report.now }
    ensures { IfOk result (λ text. text ≡ json_of plan.now program.now report.now merged) }
{
    let value = report_value(alloc, report, plan, program, merged)?;
    let mut text = value.to_string(alloc)?;
    text.push_str("\n")?;
    Ok(Text::of(text))
}
