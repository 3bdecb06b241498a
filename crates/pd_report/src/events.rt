//! The texts of values, ends and events.
ghost use Rattle.std.specs.Prelude.{◌≡◌, ◌++◌, ◌∷◌, [], codes, decimal, string_bytes, OnOk, flat_map};
ghost use Rattle.pd_tree.specs.Program.{node_at};
ghost use Rattle.pd_values.specs.Operators.{show};
ghost use Rattle.pd_report.specs.Lines.{joined};
ghost use Rattle.pd_report.specs.Words.{fault_name, cause_text, end_text, entry_text, detail_text, kind_text, position_text};

use itoa::Buffer;
use pd_log::Entry;
use pd_machine::{Cause, EventKind};
use pd_tree::Program;
use pd_values::{End, Fault, NodeId, Text, Value};
use std::alloc::AllocError;

// A number, with what stands before it.
fn push_number(text: &mut String, before: &str, number: u64) -> Result<(), AllocError>
    ensures { OnOk result (string_bytes text.new ≡ string_bytes text.old ++ (before.now ++ decimal number)) }
{
    let mut buffer = Buffer::new();
    text.push_str(before)?;
    text.push_str(buffer.format(number))
}

/// A value as it is shown, where `names` are those of the items.
pub(crate) fn push_value(text: &mut String, names: &[Text], value: &Value) -> Result<(), AllocError>
    ensures { OnOk result (string_bytes text.new ≡ string_bytes text.old ++ show names.now value.now) }
{
    match value {
        Value::Number(n) => {
            let mut buffer = Buffer::new();
            text.push_str(buffer.format(*n))
        }
        Value::Bool(b) => text.push_str(if *b { "true" } else { "false" }),
        Value::Text(t) => text.push_str(t.as_str()),
        Value::Null => text.push_str("NULL"),
        Value::Func(i) => match names.get(*i as usize) {
            Some(name) => text.push_str(name.as_str()),
            None => Ok(()),
        },
    }
}

fn fault_name(fault: Fault) -> &'static str
    ensures { result.now ≡ fault_name fault }
{
    match fault {
        Fault::Overflow => "Overflow",
        Fault::DivZero => "DivZero",
        Fault::WrongKind => "WrongKind",
        Fault::Undefined => "Undefined",
        Fault::Depth => "Depth",
        Fault::TextLong => "TextLong",
        Fault::OutputLong => "OutputLong",
        Fault::CrossType => "CrossType",
        Fault::CrossArity => "CrossArity",
    }
}

/// How a run ended, where `names` are those of the items.
pub(crate) fn push_end(text: &mut String, names: &[Text], end: &End) -> Result<(), AllocError>
    ensures { OnOk result (string_bytes text.new ≡ string_bytes text.old ++ end_text names.now end.now) }
{
    match end {
        End::Done(value) => {
            text.push_str("done ")?;
            push_value(text, names, value)
        }
        End::Faulted(fault, node) => write!(text, "fault {} {}", fault_name(*fault), node.0),
        End::Exhausted => text.push_str("exhausted"),
        End::Killed => text.push_str("killed"),
    }
}

pub(crate) fn kind_name(kind: &EventKind) -> &'static str
    ensures { result.now ≡ kind_text kind.now }
{
    match kind {
        EventKind::Enter => "enter",
        EventKind::Return(_) => "return",
        EventKind::Leave(_) => "leave",
    }
}

// Where a node starts: its source, its line and its column, each 0 for a node that the program doesn't have.
fn position(program: &Program, node: NodeId) -> (u32, u32, u32)
    ensures source { result.0 ≡ (node_at program.now node).source }
    ensures line { result.1 ≡ (node_at program.now node).line }
    ensures column { result.2 ≡ (node_at program.now node).column }
{
    if node.0 < program.nodes() {
        let section = program.section(node);
        (section.source, program.line(node), program.column(node))
    } else {
        (0, 0, 0)
    }
}

/// Where a node starts.
pub(crate) fn push_position(
    text: &mut String,
    program: &Program,
    node: NodeId,
) -> Result<(), AllocError>
    ensures { OnOk result (string_bytes text.new ≡ string_bytes text.old ++ position_text program.now node) }
{
    let (source, line, column) = position(program, node);
    write!(text, "{source}:{line}:{column}")
}

pub(crate) fn push_cause(text: &mut String, cause: Cause) -> Result<(), AllocError>
    ensures { OnOk result (string_bytes text.new ≡ string_bytes text.old ++ cause_text cause) }
{
    match cause {
        Cause::Returning => text.push_str("returning"),
        Cause::Breaking => text.push_str("breaking"),
        Cause::Continuing => text.push_str("continuing"),
        Cause::Faulting(fault) => {
            text.push_str("fault ")?;
            text.push_str(fault_name(fault))
        }
        Cause::Unwinding => text.push_str("unwinding"),
    }
}

fn push_detail(text: &mut String, names: &[Text], kind: &EventKind) -> Result<(), AllocError>
    ensures { OnOk result (string_bytes text.new ≡ string_bytes text.old ++ detail_text names.now kind.now) }
{
    match kind {
        EventKind::Enter => Ok(()),
        EventKind::Return(value) => {
            text.push_str(" ")?;
            push_value(text, names, value)
        }
        EventKind::Leave(cause) => {
            text.push_str(" ")?;
            push_cause(text, *cause)
        }
    }
}

// What stands before the node of an entry: its context, its number, its place and its kind.
fn push_event(text: &mut String, entry: &Entry) -> Result<(), AllocError>
    ensures { OnOk result (string_bytes text.new ≡ string_bytes text.old ++ joined (codes "  " ∷ decimal entry.now.context ∷ codes " " ∷ decimal entry.now.event ∷ codes " " ∷ decimal entry.now.place ∷ codes " " ∷ kind_text entry.now.kind ∷ [])) }
{
    push_number(text, "  ", entry.context as u64)?;
    push_number(text, " ", entry.event as u64)?;
    push_number(text, " ", entry.place)?;
    text.push_str(" ")?;
    text.push_str(kind_name(&entry.kind))
}

// A node, with where it starts.
fn push_node(text: &mut String, program: &Program, node: NodeId) -> Result<(), AllocError>
    ensures { OnOk result (string_bytes text.new ≡ string_bytes text.old ++ joined (codes " " ∷ decimal node ∷ codes " " ∷ position_text program.now node ∷ [])) }
{
    push_number(text, " ", node.0 as u64)?;
    text.push_str(" ")?;
    push_position(text, program, node)
}

fn push_entry(text: &mut String, program: &Program, entry: &Entry) -> Result<(), AllocError>
    ensures { OnOk result (string_bytes text.new ≡ string_bytes text.old ++ entry_text program.now entry.now) }
{
    push_event(text, entry)?;
    push_node(text, program, entry.node)?;
    push_detail(text, program.names(), &entry.kind)?;
    text.push_str("\n")?;
    Ok(())
}

/// The entries of a log, a line for each.
pub(crate) fn push_entries(
    text: &mut String,
    program: &Program,
    log: &[Entry],
) -> Result<(), AllocError>
    ensures { OnOk result (string_bytes text.new ≡ string_bytes text.old ++ flat_map (entry_text program.now) log.now) }
{
    for entry in log {
        push_entry(text, program, entry)?;
    }
    Ok(())
}
