//! The rules of SL on the values of a node's parts.
ghost use Rattle.std.specs.Prelude.{◌≡◌, ◌<◌, length, IfOk};
ghost use Rattle.pd_tree.specs.Program.{node_at};
ghost use Rattle.pd_machine.specs.declared.run.NodeResult.TheVariants.{Gives, Returns};
ghost use Rattle.pd_meaning.specs.Meaning.{assigned, ends, first_or_null, on_one};
ghost use Rattle.pd_meaning.specs.Machine.{combining, settled, value_called};
ghost use Rattle.pd_meaning.specs.Steps.{Does};
ghost use Rattle.pd_sl_step.specs.Sl.{IsSl, callee_of};

use pd_cross::{assign, call, operate, read};
use pd_machine::{Machine, Mode, NodeResult};
use pd_tree::{Kind, Meaning, Program};
use pd_values::{Fault, Items, NodeId, Value};
use std::alloc::{AllocError, Global};

/// A node of SL whose parts have these values does its work: it comes to a result, or a call begins.
pub fn combine(
    alloc: Global,
    m: &mut Machine,
    program: &Program,
    n: NodeId,
    values: Items<Value>,
) -> Result<(), AllocError>
    requires node { n < length program.now.nodes }
    requires sl { IsSl (node_at program.now n).kind }
    ensures { IfOk result (λ _. Does (λ stack s. combining program.now n (node_at program.now n).kind values stack s) m.old m.new) }
{
    match program.kind(n) {
        Kind::SlCall => called(alloc, m, program, n, values.as_slice()),
        Kind::SlBinary(op) => operate(alloc, m, program, n, *op, values.as_slice()),
        Kind::SlAssign(_) => assigned(m, n, program.meaning(n), values.as_slice()),
        Kind::SlName(_) => read(m, n, program.meaning(n)),
        Kind::SlNumber(z) => {
            m.set_mode(Mode::Coming(NodeResult::Gives(Value::Number(*z))));
            Ok(())
        }
        Kind::SlText(text) => {
            m.set_mode(Mode::Coming(NodeResult::Gives(Value::Text(text.copy()?))));
            Ok(())
        }
        Kind::SlReturn => returned(m, values.as_slice()),
        Kind::SlBreak => {
            m.set_mode(Mode::Coming(NodeResult::Breaks));
            Ok(())
        }
        Kind::SlContinue => {
            m.set_mode(Mode::Coming(NodeResult::Continues));
            Ok(())
        }
        _ => {
            m.set_mode(Mode::Coming(NodeResult::Gives(Value::Null)));
            Ok(())
        }
    }
}

/// A call: the callee's value, and the arguments.
#[tactic(auto, using(crate::proofs::Callees::no_callee, crate::proofs::Callees::some_callee))]
fn called(
    alloc: Global,
    m: &mut Machine,
    program: &Program,
    n: NodeId,
    values: &[Value],
) -> Result<(), AllocError>
    ensures { IfOk result (λ _. Does (λ stack s. value_called program.now n values.now stack s) m.old m.new) }
{
    match callee(values) {
        Some(item) => call(alloc, m, program, n, item, &values[1..]),
        None => {
            m.set_mode(Mode::Coming(NodeResult::Faults(Fault::WrongKind, n)));
            Ok(())
        }
    }
}

/// The item of the first value, where it is a function.
fn callee(values: &[Value]) -> Option<u32>
    ensures { result ≡ callee_of values.now }
{
    match values {
        [Value::Func(item), ..] => Some(*item),
        _ => None,
    }
}

/// An assignment gives the value assigned.
fn assigned(
    m: &mut Machine,
    n: NodeId,
    meaning: Meaning,
    values: &[Value],
) -> Result<(), AllocError>
    ensures { IfOk result (λ _. Does (λ stack s. settled stack (on_one n values.now (λ a t. ends (Gives a) (assigned meaning a t)) s)) m.old m.new) }
{
    match values {
        [value] => assign(m, meaning, value.copy()?, value.copy()?),
        _ => m.set_mode(Mode::Coming(NodeResult::Faults(Fault::WrongKind, n))),
    }
    Ok(())
}

/// A `return` of its part's value, or of NULL where it has none.
fn returned(m: &mut Machine, values: &[Value]) -> Result<(), AllocError>
    ensures { IfOk result (λ _. Does (λ stack s. settled stack (ends (Returns (first_or_null values.now)) s)) m.old m.new) }
{
    let value = match values.first() {
        Some(first) => first.copy()?,
        None => Value::Null,
    };
    m.set_mode(Mode::Coming(NodeResult::Returns(value)));
    Ok(())
}
