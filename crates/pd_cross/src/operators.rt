//! Operators at a node.
ghost use Rattle.std.specs.Prelude.{◌≡◌, IfOk, IsFalse, IsTrue};
ghost use Rattle.pd_values.specs.Answers.{IsNamed};
ghost use Rattle.pd_values.specs.Operators as table;
ghost use Rattle.pd_tree.specs.Binary as both;
ghost use Rattle.pd_tree.specs.Program.{item_names};
ghost use Rattle.pd_meaning.specs.Meaning.{answered, on_two};
ghost use Rattle.pd_meaning.specs.Machine.{settled};
ghost use Rattle.pd_meaning.specs.Steps.{Does};
ghost use Rattle.pd_cross.specs.Parameters.{IsUnnamed};

use pd_machine::{Machine, Mode, NodeResult};
use pd_tree::{Operator, Program};
use pd_values::{Cmp, Fault, NodeId, Stop, Text, Value, add, compare, div, equal, mul, sub};
use std::alloc::{AllocError, Global};

/// An operator's answer at a node: its value, or its fault there.
pub fn answer(m: &mut Machine, n: NodeId, given: Result<Value, Fault>)
    ensures { Does (λ stack s. settled stack (answered n given s)) m.old m.new }
{
    match given {
        Ok(value) => m.set_mode(Mode::Coming(NodeResult::Gives(value))),
        Err(fault) => m.set_mode(Mode::Coming(NodeResult::Faults(fault, n))),
    }
}

/// An operator with two operands at a node.
pub fn operate(
    alloc: Global,
    m: &mut Machine,
    program: &Program,
    n: NodeId,
    op: Operator,
    operands: &[Value],
) -> Result<(), AllocError>
    ensures { IfOk result (λ _. Does (λ stack s. settled stack (on_two n operands.now (λ a b. answered n (both.binary (item_names program.now) op a b)) s)) m.old m.new) }
{
    match operands {
        [a, b] => {
            let given = binary(alloc, op, a, b, program.names())?;
            answer(m, n, given);
        }
        _ => m.set_mode(Mode::Coming(NodeResult::Faults(Fault::WrongKind, n))),
    }
    Ok(())
}

/// What an operator gives for two values.
fn binary(
    alloc: Global,
    op: Operator,
    a: &Value,
    b: &Value,
    names: &[Text],
) -> Result<Result<Value, Fault>, AllocError>
    ensures { IfOk result (λ r. r ≡ both.binary names.now op a.now b.now) }
{
    match op {
        Operator::Equal => Ok(Ok(Value::Bool(equal(a, b)))),
        Operator::NotEqual => Ok(Ok(Value::Bool(!equal(a, b)))),
        Operator::Less => Ok(compared(Cmp::Less, a, b)),
        Operator::LessEq => Ok(compared(Cmp::LessEq, a, b)),
        Operator::Greater => Ok(compared(Cmp::Greater, a, b)),
        Operator::GreaterEq => Ok(compared(Cmp::GreaterEq, a, b)),
        Operator::Add => sum(alloc, a, b, names),
        Operator::Sub => Ok(sub(a, b)),
        Operator::Mul => Ok(mul(a, b)),
        Operator::Div => Ok(div(a, b)),
    }
}

/// Whether two values stand in this order, as a value.
fn compared(op: Cmp, a: &Value, b: &Value) -> Result<Value, Fault>
    ensures { result ≡ both.as_truth (table.compare op a.now b.now) }
{
    match compare(op, a, b) {
        Ok(holds) => Ok(Value::Bool(holds)),
        Err(fault) => Err(fault),
    }
}

/// Two values added. A function that is no item is shown as nothing.
fn sum(
    alloc: Global,
    a: &Value,
    b: &Value,
    names: &[Text],
) -> Result<Result<Value, Fault>, AllocError>
    ensures { IfOk result (λ r. r ≡ table.add names.now a.now b.now) }
{
    let nothing = Value::Text(Text::of(String::new(alloc)));
    if is_unnamed(a, names) {
        return match b {
            Value::Text(_) => added(alloc, &nothing, b, names),
            _ => Ok(Err(Fault::WrongKind)),
        };
    }
    if is_unnamed(b, names) {
        return match a {
            Value::Text(_) => added(alloc, a, &nothing, names),
            _ => Ok(Err(Fault::WrongKind)),
        };
    }
    added(alloc, a, b, names)
}

/// Two values added, of which a function is an item with one of these names.
fn added(
    alloc: Global,
    a: &Value,
    b: &Value,
    names: &[Text],
) -> Result<Result<Value, Fault>, AllocError>
    requires left { IsNamed names.now a.now }
    requires right { IsNamed names.now b.now }
    ensures { IfOk result (λ r. r ≡ table.add names.now a.now b.now) }
{
    match add(alloc, a, b, names) {
        Ok(value) => Ok(Ok(value)),
        Err(Stop::Refused(fault)) => Ok(Err(fault)),
        Err(Stop::Memory) => Err(AllocError),
    }
}

/// Whether a value is a function that is no item.
fn is_unnamed(value: &Value, names: &[Text]) -> bool
    ensures named { IsFalse result → IsNamed names.now value.now }
    ensures unnamed { IsTrue result → IsUnnamed names.now value.now }
{
    match value {
        Value::Func(i) => *i as usize >= names.len(),
        _ => false,
    }
}
