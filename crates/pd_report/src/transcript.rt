//! The text of a report, and the line of a check.
ghost use Rattle.std.specs.Prelude.{◌≡◌, ◌<◌, ◌++◌, ◌∷◌, [], true, length, slice_get, slice_index, slice_index_or, string_bytes, OnOk, IfOk, flat_map};
ghost use Rattle.pd_board.specs.Tally.{no_tally};
ghost use Rattle.pd_log.specs.Merging.{PlacesDiffer};
ghost use Rattle.pd_report.specs.Lines.{lines_of, numbered};
ghost use Rattle.pd_report.specs.Words.{entry_text};
ghost use Rattle.pd_report.specs.Logs.{entries_of, log_of, PlacesAreApart};
ghost use Rattle.pd_report.specs.Transcript.{output_text, source_name, entry_name, context_line, end_line, context_text, before_text, session_text, state_name, binding_kind, binding_line, binding_text, text_of, check_line};

use crate::acts::{attach_name, push_actions};
use crate::events::{push_end, push_entries};
use crate::logs::{log_in, merged_log};
use crate::stops::push_stops;
use pd_board::{ActResult, BindingTally, State};
use pd_break::{Resolved, resolve};
use pd_plan::{BindingSpec, Plan};
use pd_run::Report;
use pd_session::SessionRecord;
use pd_suspend::ContextRecord;
use pd_tree::Program;
use pd_values::Text;
use std::alloc::{AllocError, Global};

// The first line of a text, and what stands after it.
fn next_line(text: &str) -> (&str, &str)
    requires { 0 < length text.now }
    ensures lines { lines_of text.now ≡ result.0.now ∷ lines_of result.1.now }
    ensures shorter { length result.1.now < length text.now }
{
    match text.split_once('\n') {
        Some((line, behind)) => (line, behind),
        None => (text, ""),
    }
}

// The output, a line for each of its lines.
fn push_output(text: &mut String, output: &str) -> Result<(), AllocError>
    ensures { OnOk result (string_bytes text.new ≡ string_bytes text.old ++ flat_map output_text (lines_of output.now)) }
{
    let mut rest = output;
    while !rest.is_empty() {
        let (line, behind) = next_line(rest);
        writeln!(text, "| {line}")?;
        rest = behind;
    }
    Ok(())
}

/// The name of a source, by its number.
pub(crate) fn source_name(plan: &Plan, source: u32) -> &str
    ensures { result.now ≡ source_name (slice_get plan.now.sources source) }
{
    match plan.sources.get(source as usize) {
        Some(spec) => spec.name.as_str(),
        None => "",
    }
}

// What a context runs: the name of its source, and its entry.
fn push_entry_name(text: &mut String, plan: &Plan, context: usize) -> Result<(), AllocError>
    ensures { OnOk result (string_bytes text.new ≡ string_bytes text.old ++ entry_name plan.now (slice_get plan.now.contexts context)) }
{
    match plan.contexts.get(context) {
        Some(spec) => write!(
            text,
            " {} {}",
            source_name(plan, spec.source),
            spec.entry.as_str()
        ),
        None => Ok(()),
    }
}

fn push_context_line(text: &mut String, plan: &Plan, number: usize) -> Result<(), AllocError>
    ensures { OnOk result (string_bytes text.new ≡ string_bytes text.old ++ context_line plan.now number) }
{
    write!(text, "context {number}")?;
    push_entry_name(text, plan, number)?;
    text.push_str("\n")
}

fn push_end_line(
    text: &mut String,
    program: &Program,
    context: &ContextRecord,
) -> Result<(), AllocError>
    ensures { OnOk result (string_bytes text.new ≡ string_bytes text.old ++ end_line program.now context.now) }
{
    text.push_str("end ")?;
    push_end(text, program.names(), &context.end)?;
    writeln!(text, " fuel {}", context.used)
}

fn push_context(
    text: &mut String,
    plan: &Plan,
    program: &Program,
    number: usize,
    context: &ContextRecord,
) -> Result<(), AllocError>
    ensures { OnOk result (string_bytes text.new ≡ string_bytes text.old ++ context_text plan.now program.now number context.now) }
{
    push_context_line(text, plan, number)?;
    push_output(text, context.output.as_str())?;
    push_end_line(text, program, context)?;
    push_stops(text, program, context.stops.as_slice())
}

fn push_contexts(
    text: &mut String,
    plan: &Plan,
    program: &Program,
    contexts: &[ContextRecord],
) -> Result<(), AllocError>
    ensures { OnOk result (string_bytes text.new ≡ string_bytes text.old ++ numbered (context_text plan.now program.now) 0 contexts.now) }
{
    for (number, context) in contexts.iter().enumerate() {
        push_context(text, plan, program, number, context)?;
    }
    Ok(())
}

// The answers to a `before` list, a line for each; such a list has no other acts than attaches.
fn push_before(text: &mut String, before: &[ActResult]) -> Result<(), AllocError>
    ensures { OnOk result (string_bytes text.new ≡ string_bytes text.old ++ flat_map before_text before.now) }
{
    for result in before {
        if let ActResult::Attached(binding, answer) = result {
            writeln!(text, "  before {binding} {}", attach_name(*answer))?;
        }
    }
    Ok(())
}

/// How many answers of a session were taken.
pub(crate) fn answers_of(answers: &[u32], session: usize) -> u32
    ensures { result ≡ slice_index answers.now session }
{
    match answers.get(session) {
        Some(taken) => *taken,
        None => 0,
    }
}

fn push_session(
    text: &mut String,
    answers: &[u32],
    number: usize,
    session: &SessionRecord,
) -> Result<(), AllocError>
    ensures { OnOk result (string_bytes text.new ≡ string_bytes text.old ++ session_text answers.now number session.now) }
{
    let taken = answers_of(answers, number);
    writeln!(text, "session {number} answers {taken}")?;
    push_before(text, session.before.as_slice())?;
    push_actions(text, session.actions.as_slice())
}

fn push_sessions(
    text: &mut String,
    answers: &[u32],
    sessions: &[SessionRecord],
) -> Result<(), AllocError>
    ensures { OnOk result (string_bytes text.new ≡ string_bytes text.old ++ numbered (session_text answers.now) 0 sessions.now) }
{
    for (number, session) in sessions.iter().enumerate() {
        push_session(text, answers, number, session)?;
    }
    Ok(())
}

// What a binding is, and of a breakpoint the line on which it stops.
fn push_kind(text: &mut String, program: &Program, binding: &BindingSpec) -> Result<(), AllocError>
    ensures { OnOk result (string_bytes text.new ≡ string_bytes text.old ++ binding_kind program.now binding.now) }
{
    match binding {
        BindingSpec::Observe(_) => text.push_str("observe"),
        BindingSpec::Pause { .. } => text.push_str("pause"),
        BindingSpec::Break(spec) => match resolve(program, spec.source, spec.line) {
            Resolved::Line(line) => write!(text, "break {line}"),
            Resolved::Unresolved => text.push_str("break unresolved"),
        },
    }
}

pub(crate) fn state_name(state: State) -> &'static str
    ensures { result.now ≡ state_name state }
{
    match state {
        State::Unattached => "unattached",
        State::Live => "live",
        State::Disposed => "disposed",
    }
}

/// How a binding ended up, and its count.
pub(crate) fn tally_of(tallies: &[BindingTally], binding: usize) -> BindingTally
    ensures { result ≡ slice_index_or tallies.now binding no_tally }
{
    match tallies.get(binding) {
        Some(found) => *found,
        None => BindingTally {
            state: State::Unattached,
            count: 0,
        },
    }
}

// The log of a binding, context by context.
fn push_logs(
    text: &mut String,
    program: &Program,
    contexts: &[ContextRecord],
    binding: usize,
) -> Result<(), AllocError>
    ensures { OnOk result (string_bytes text.new ≡ string_bytes text.old ++ flat_map (entry_text program.now) (entries_of binding contexts.now)) }
{
    for context in contexts {
        push_entries(text, program, log_in(context, binding))?;
    }
    Ok(())
}

// The log of a binding, merged or context by context.
fn push_log(
    text: &mut String,
    alloc: Global,
    program: &Program,
    contexts: &[ContextRecord],
    binding: usize,
    merged: bool,
) -> Result<(), AllocError>
    requires { merged ≡ true → PlacesDiffer (entries_of binding contexts.now) }
    ensures { OnOk result (string_bytes text.new ≡ string_bytes text.old ++ flat_map (entry_text program.now) (log_of merged binding contexts.now)) }
{
    if merged {
        let log = merged_log(alloc, contexts, binding)?;
        push_entries(text, program, log.as_slice())
    } else {
        push_logs(text, program, contexts, binding)
    }
}

fn push_binding_line(
    text: &mut String,
    program: &Program,
    number: usize,
    binding: &BindingSpec,
    tally: BindingTally,
) -> Result<(), AllocError>
    ensures { OnOk result (string_bytes text.new ≡ string_bytes text.old ++ binding_line program.now number binding.now tally) }
{
    let BindingTally { state, count } = tally;
    write!(text, "binding {number} ")?;
    push_kind(text, program, binding)?;
    writeln!(text, " count {count} {}", state_name(state))?;
    Ok(())
}

fn push_binding(
    text: &mut String,
    alloc: Global,
    program: &Program,
    report: &Report,
    merged: bool,
    number: usize,
    binding: &BindingSpec,
) -> Result<(), AllocError>
    requires { merged ≡ true → PlacesAreApart report.now }
    ensures { OnOk result (string_bytes text.new ≡ string_bytes text.old ++ binding_text program.now report.now merged number binding.now) }
{
    let tally = tally_of(report.tally.bindings(), number);
    push_binding_line(text, program, number, binding, tally)?;
    push_log(
        text,
        alloc,
        program,
        report.contexts.as_slice(),
        number,
        merged,
    )
}

fn push_bindings(
    text: &mut String,
    alloc: Global,
    program: &Program,
    report: &Report,
    merged: bool,
    bindings: &[BindingSpec],
) -> Result<(), AllocError>
    requires { merged ≡ true → PlacesAreApart report.now }
    ensures { OnOk result (string_bytes text.new ≡ string_bytes text.old ++ numbered (binding_text program.now report.now merged) 0 bindings.now) }
{
    for (number, binding) in bindings.iter().enumerate() {
        push_binding(text, alloc, program, report, merged, number, binding)?;
    }
    Ok(())
}

/// The text of a report: its contexts with their suspensions, then its sessions with their actions, then its bindings
/// with their logs, each log context by context or, with `merged`, in the order of places. Condition, with `merged`
/// alone: no two entries of a binding have one place. The only error is `AllocError`, where memory runs out.
/// docs/FORMATS.md has the format.
pub fn text_of(
    alloc: Global,
    report: &Report,
    plan: &Plan,
    program: &Program,
    merged: bool,
) -> Result<Text, AllocError>
    requires { merged ≡ true → PlacesAreApart report.now }
    ensures { IfOk result (λ text. text ≡ text_of plan.now program.now report.now merged) }
{
    let mut text = String::new(alloc);
    push_contexts(&mut text, plan, program, report.contexts.as_slice())?;
    push_sessions(
        &mut text,
        report.tally.answers(),
        report.sessions.as_slice(),
    )?;
    push_bindings(
        &mut text,
        alloc,
        program,
        report,
        merged,
        plan.bindings.as_slice(),
    )?;
    Ok(Text::of(text))
}

/// The line of a check: how many sources, nodes, contexts, bindings and sessions were read and loaded. The only error
/// is `AllocError`, where memory runs out.
pub fn check_line(alloc: Global, plan: &Plan, program: &Program) -> Result<Text, AllocError>
    ensures { IfOk result (λ text. text ≡ check_line plan.now program.now) }
{
    let sources = plan.sources.as_slice().len();
    let contexts = plan.contexts.as_slice().len();
    let bindings = plan.bindings.as_slice().len();
    let sessions = plan.sessions.as_slice().len();
    let nodes = program.nodes();
    let mut text = String::new(alloc);
    write!(text, "ok {sources} sources {nodes} nodes ")?;
    write!(text, "{contexts} contexts {bindings} bindings ")?;
    writeln!(text, "{sessions} sessions")?;
    Ok(Text::of(text))
}
