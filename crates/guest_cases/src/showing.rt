//! A record as text.
use pd_board::{ActResult, Attach, Dispose, Drawn, Toggle};
use pd_log::Entry;
use pd_machine::{Cause, EventKind};
use pd_plan::Resume;
use pd_suspend::{Anchor, ContextRecord, FrameView, Reason, Suspension};
use pd_tree::{Kind, Program};
use pd_values::{End, NodeId, Value};
use std::alloc::{AllocError, Global};
use std::fmt::Write;

/// All of a record, a line for each of its parts: the output, the end with the fuel used, the suspensions, and each log.
pub fn shown(
    alloc: Global,
    program: &Program,
    record: &ContextRecord,
) -> Result<String, AllocError> {
    let mut text = String::new(alloc);
    show_run(&mut text, record)?;
    for stop in record.stops.as_slice() {
        show_stop(&mut text, program, stop)?;
    }
    for (b, log) in record.logs.as_slice().iter().enumerate() {
        writeln!(text, "binding {b}")?;
        for entry in log.as_slice() {
            show_entry(&mut text, entry)?;
        }
    }
    show_draws(&mut text, record)?;
    Ok(text)
}

fn show_run(text: &mut String, record: &ContextRecord) -> Result<(), AllocError> {
    for line in record.output.as_str().split('\n') {
        if !line.is_empty() {
            writeln!(text, "| {line}")?;
        }
    }
    text.push_str("end ")?;
    match &record.end {
        End::Done(value) => {
            text.push_str("done ")?;
            show_value(text, value)?;
        }
        End::Faulted(fault, node) => write!(text, "fault {:?} {}", fault, node.0)?,
        End::Exhausted => text.push_str("exhausted")?,
        End::Killed => text.push_str("killed")?,
    }
    writeln!(text, " fuel {}", record.used)?;
    Ok(())
}

fn show_value(text: &mut String, value: &Value) -> Result<(), AllocError> {
    match value {
        Value::Number(number) => write!(text, "{number}")?,
        Value::Bool(truth) => write!(text, "{truth}")?,
        Value::Text(held) => text.push_str(held.as_str())?,
        Value::Null => text.push_str("NULL")?,
        Value::Func(item) => write!(text, "item {item}")?,
    }
    Ok(())
}

fn show_stop(text: &mut String, program: &Program, stop: &Suspension) -> Result<(), AllocError> {
    let anchor = match stop.anchor {
        Anchor::Before => "before",
        Anchor::After => "after",
    };
    let (event, session, node) = (stop.event, stop.session, stop.node.0);
    write!(
        text,
        "stop {event} session {session} {anchor} {node} answer {}",
        stop.answer
    )?;
    let mut between = ' ';
    for reason in stop.reasons.as_slice() {
        text.push(between)?;
        show_reason(text, *reason)?;
        between = ',';
    }
    text.push('\n')?;
    for (number, frame) in stop.frames.as_slice().iter().enumerate() {
        show_frame(text, program, number, frame)?;
    }
    for answer in stop.acts.as_slice() {
        show_act(text, *answer)?;
    }
    show_resume(text, &stop.resume)
}

fn show_reason(text: &mut String, reason: Reason) -> Result<(), AllocError> {
    match reason {
        Reason::Hit {
            binding,
            place,
            cannot,
        } => {
            write!(text, "hit {binding}@{place}")?;
            text.push_str(if cannot { "?" } else { "" })?;
        }
        Reason::Step => text.push_str("step")?,
        Reason::Halt => text.push_str("halt")?,
    }
    Ok(())
}

/// The name of the function or procedure that a node is.
fn name_of(program: &Program, root: NodeId) -> &str {
    if root.0 >= program.nodes() {
        return "no node";
    }
    match program.kind(root) {
        Kind::SlFunction { name, .. } | Kind::PlProcedure { name, .. } => name.as_str(),
        _ => "no root",
    }
}

fn show_frame(
    text: &mut String,
    program: &Program,
    number: usize,
    frame: &FrameView,
) -> Result<(), AllocError> {
    write!(text, "  frame {number} {}", name_of(program, frame.root))?;
    for variable in frame.variables.as_slice() {
        write!(text, " {}=", variable.name.as_str())?;
        show_value(text, &variable.value)?;
    }
    text.push('\n')?;
    Ok(())
}

fn show_act(text: &mut String, answer: ActResult) -> Result<(), AllocError> {
    match answer {
        ActResult::Attached(b, Attach::Attached) => writeln!(text, "  attach {b} attached")?,
        ActResult::Attached(b, Attach::Already) => writeln!(text, "  attach {b} already")?,
        ActResult::Attached(b, Attach::Gone) => writeln!(text, "  attach {b} gone")?,
        ActResult::Disposed(b, Dispose::Disposed { count }) => {
            writeln!(text, "  dispose {b} disposed {count}")?;
        }
        ActResult::Disposed(b, Dispose::Already) => writeln!(text, "  dispose {b} already")?,
        ActResult::Enabled(b, toggle) => show_toggle(text, "enable", b, toggle)?,
        ActResult::Disabled(b, toggle) => show_toggle(text, "disable", b, toggle)?,
    }
    Ok(())
}

fn show_toggle(text: &mut String, word: &str, b: u32, toggle: Toggle) -> Result<(), AllocError> {
    match toggle {
        Toggle::At { count } => writeln!(text, "  {word} {b} at {count}")?,
        Toggle::Already => writeln!(text, "  {word} {b} already")?,
        Toggle::Gone => writeln!(text, "  {word} {b} gone")?,
    }
    Ok(())
}

fn show_resume(text: &mut String, resume: &Resume) -> Result<(), AllocError> {
    text.push_str("  then ")?;
    match resume {
        Resume::Continue => text.push_str("continue")?,
        Resume::Into(count) => write!(text, "into {count}")?,
        Resume::Over(count) => write!(text, "over {count}")?,
        Resume::Out(count) => write!(text, "out {count}")?,
        Resume::Reenter(frame) => write!(text, "reenter {frame}")?,
        Resume::Return(frame, value) => {
            write!(text, "return {frame} ")?;
            show_value(text, value)?;
        }
        Resume::Kill => text.push_str("kill")?,
    }
    text.push('\n')?;
    Ok(())
}

fn show_entry(text: &mut String, entry: &Entry) -> Result<(), AllocError> {
    let (event, place, node) = (entry.event, entry.place, entry.node.0);
    match &entry.kind {
        EventKind::Enter => write!(text, "  {event} {place} enter {node}")?,
        EventKind::Return(value) => {
            write!(text, "  {event} {place} return {node} ")?;
            show_value(text, value)?;
        }
        EventKind::Leave(cause) => {
            write!(text, "  {event} {place} leave {node} ")?;
            show_cause(text, *cause)?;
        }
    }
    text.push('\n')?;
    Ok(())
}

fn show_cause(text: &mut String, cause: Cause) -> Result<(), AllocError> {
    match cause {
        Cause::Returning => text.push_str("returning")?,
        Cause::Breaking => text.push_str("breaking")?,
        Cause::Continuing => text.push_str("continuing")?,
        Cause::Faulting(fault) => write!(text, "fault {:?}", fault)?,
        Cause::Unwinding => text.push_str("unwinding")?,
    }
    Ok(())
}

/// Shows how many draws gave an entry, and how many a number alone.
fn show_draws(text: &mut String, record: &ContextRecord) -> Result<(), AllocError> {
    let (mut on, mut missed) = (0u32, 0u32);
    for sight in record.seen.as_slice() {
        match sight.drawn {
            Drawn::On { .. } => on = on.saturating_add(1),
            Drawn::Missed { .. } => missed = missed.saturating_add(1),
            Drawn::Off => {}
        }
    }
    writeln!(text, "{on} draws on, {missed} missed")?;
    Ok(())
}
