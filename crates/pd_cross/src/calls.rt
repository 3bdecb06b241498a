//! A call of an item.
ghost use Rattle.std.specs.Prelude.{◌≡◌, ◌^◌, ◌<◌, ◌∷◌, IfOk};
ghost use Rattle.pd_values.specs.Operators as table;
ghost use Rattle.pd_tree.specs.Program.{item_at, item_names, node_at};
ghost use Rattle.pd_meaning.specs.Meaning.{around, written};
ghost use Rattle.pd_meaning.specs.Machine.{arguments_checked, item_called, settled};
ghost use Rattle.pd_meaning.specs.Steps.{Does};

use crate::arguments::first_variables;
use crate::items::{level_of, root_of, source_of};
use pd_machine::{Frame, Home, MOST_FRAMES, Machine, Mode, NodeResult};
use pd_tree::Program;
use pd_values::{Fault, Items, NodeId, Text, Value, show};
use std::alloc::{AllocError, Global};

/// A call at a node of an item with these arguments: the root of a function or procedure is entered in a new
/// frame, or `println` writes its first argument and gives it.
pub fn call(
    alloc: Global,
    m: &mut Machine,
    program: &Program,
    n: NodeId,
    item: u32,
    arguments: &[Value],
) -> Result<(), AllocError>
    ensures { IfOk result (λ _. Does (λ stack s. item_called program.now n (item_at program.now item).root arguments.now stack s) m.old m.new) }
{
    match root_of(program, item) {
        Some(root) => invoke(alloc, m, program, n, root, arguments),
        None => print(alloc, m, program, n, arguments),
    }
}

/// `println` at a node.
fn print(
    alloc: Global,
    m: &mut Machine,
    program: &Program,
    n: NodeId,
    arguments: &[Value],
) -> Result<(), AllocError>
    ensures { IfOk result (λ _. Does (λ stack s. item_called program.now n None arguments.now stack s) m.old m.new) }
{
    let value = match arguments.first() {
        Some(first) => first.copy()?,
        None => Value::Null,
    };
    let text = shown(alloc, &value, program.names())?;
    write_text(m, n, &text, value)
}

/// A value is written at a node, which gives the other value.
pub fn write(
    alloc: Global,
    m: &mut Machine,
    program: &Program,
    n: NodeId,
    value: &Value,
    gives: Value,
) -> Result<(), AllocError>
    ensures { IfOk result (λ _. Does (λ stack s. settled stack (written n (table.show (item_names program.now) value.now) gives s)) m.old m.new) }
{
    let text = shown(alloc, value, program.names())?;
    write_text(m, n, &text, gives)
}

/// A text is written at a node, which gives the value; `OutputLong` where the output has no room for it.
fn write_text(m: &mut Machine, n: NodeId, text: &Text, gives: Value) -> Result<(), AllocError>
    ensures { IfOk result (λ _. Does (λ stack s. settled stack (written n text.now gives s)) m.old m.new) }
{
    if m.write_line(text.as_str())? {
        m.set_mode(Mode::Coming(NodeResult::Gives(gives)));
    } else {
        m.set_mode(Mode::Coming(NodeResult::Faults(Fault::OutputLong, n)));
    }
    Ok(())
}

/// The text that a value is printed as; a function that is no item has none.
fn shown(alloc: Global, value: &Value, names: &[Text]) -> Result<Text, AllocError>
    ensures { IfOk result (λ t. t ≡ table.show names.now value.now) }
{
    if let Value::Func(i) = value {
        if *i as usize >= names.len() {
            return Ok(Text::of(String::new(alloc)));
        }
    }
    show(alloc, value, names)
}

/// A call of a function or procedure.
fn invoke(
    alloc: Global,
    m: &mut Machine,
    program: &Program,
    n: NodeId,
    root: NodeId,
    arguments: &[Value],
) -> Result<(), AllocError>
    ensures { IfOk result (λ _. Does (λ stack s. item_called program.now n (Some root) arguments.now stack s) m.old m.new) }
{
    match first_variables(alloc, program, root, arguments)? {
        Ok(variables) => begin(alloc, m, program, n, root, variables),
        Err(fault) => {
            m.set_mode(Mode::Coming(NodeResult::Faults(fault, n)));
            Ok(())
        }
    }
}

/// A call whose callee begins with these variables: `Depth` where 2,000 frames are live.
fn begin(
    alloc: Global,
    m: &mut Machine,
    program: &Program,
    n: NodeId,
    root: NodeId,
    variables: Items<Value>,
) -> Result<(), AllocError>
    ensures { IfOk result (λ _. Does (λ stack s. arguments_checked n root (node_at program.now root) (Ok variables) stack s) m.old m.new) }
{
    if m.depth() >= MOST_FRAMES {
        m.set_mode(Mode::Coming(NodeResult::Faults(Fault::Depth, n)));
        return Ok(());
    }
    let frame = frame_for(alloc, program, root, variables, m.depth(), m.blocks())?;
    m.stand(n);
    m.begin_call(alloc, frame)
}

/// The frame of a callee with these variables, where so many frames are live and the innermost sees these blocks.
pub fn frame_for(
    alloc: Global,
    program: &Program,
    root: NodeId,
    variables: Items<Value>,
    depth: usize,
    seen: &[Home],
) -> Result<Frame, AllocError>
    requires { depth < 2 ^ 32 }
    ensures { IfOk result (λ f. f ≡ record { root = root; at = root; variables = variables; blocks = Home.InFrame depth ∷ around (node_at program.now root).level (node_at program.now root).source seen.now }) }
{
    let level = level_of(program, root) as usize;
    let mut blocks = Vec::new(alloc);
    blocks.push(Home::InFrame(depth as u32))?;
    if level == 1 {
        blocks.push(Home::InMain(source_of(program, root)))?;
    }
    if level > 1 {
        blocks.extend_from_slice(&seen[seen.len().saturating_sub(level)..])?;
    }
    Ok(Frame {
        root,
        at: root,
        variables,
        blocks: Items::of(blocks),
    })
}
