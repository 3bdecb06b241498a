//! The rules of PL/0 on the values of a node's parts.
ghost use Rattle.std.specs.Prelude.{◌≡◌, ◌<◌, length, IfOk};
ghost use Rattle.pd_values.specs.Operators as table;
ghost use Rattle.pd_values.specs.declared.value.Value.TheVariants.{Null};
ghost use Rattle.pd_tree.specs.Program.{item_names, node_at};
ghost use Rattle.pd_machine.specs.declared.run.NodeResult.TheVariants.{Gives};
ghost use Rattle.pd_meaning.specs.Meaning.{answered, assigned, ends, on_one, written};
ghost use Rattle.pd_meaning.specs.Machine.{combining, name_called, settled};
ghost use Rattle.pd_meaning.specs.Steps.{Does};
ghost use Rattle.pd_pl0_step.specs.Pl0.{IsPl0, first_of_block};

use pd_cross::{answer, assign, call, operate, read, write};
use pd_machine::{Machine, Mode, NodeResult, Pending};
use pd_tree::{Kind, Meaning, Program};
use pd_values::{Fault, Items, NodeId, Value, minus, odd, plus};
use std::alloc::{AllocError, Global};

/// A node of PL/0 whose parts have these values does its work: it comes to a result, or a call begins.
pub fn combine(
    alloc: Global,
    m: &mut Machine,
    program: &Program,
    n: NodeId,
    values: Items<Value>,
) -> Result<(), AllocError>
    requires node { n < length program.now.nodes }
    requires pl0 { IsPl0 (node_at program.now n).kind }
    ensures { IfOk result (λ _. Does (λ stack s. combining program.now n (node_at program.now n).kind values stack s) m.old m.new) }
{
    match program.kind(n) {
        Kind::PlBody => block_value(m),
        Kind::PlAssign(_) => assigned(m, n, program.meaning(n), values.as_slice()),
        Kind::PlCall(_) => called(alloc, m, program, n, program.meaning(n)),
        Kind::PlWrite => written(alloc, m, program, n, values.as_slice()),
        Kind::PlOdd => {
            odd_at(m, n, values.as_slice());
            Ok(())
        }
        Kind::PlBinary(op) => operate(alloc, m, program, n, *op, values.as_slice()),
        Kind::PlPlus => {
            plus_at(m, n, values.as_slice());
            Ok(())
        }
        Kind::PlMinus => {
            minus_at(m, n, values.as_slice());
            Ok(())
        }
        Kind::PlName(_) => read(m, n, program.meaning(n)),
        Kind::PlNumber(z) => {
            m.set_mode(Mode::Coming(NodeResult::Gives(Value::Number(*z))));
            Ok(())
        }
        _ => {
            m.set_mode(Mode::Coming(NodeResult::Gives(Value::Null)));
            Ok(())
        }
    }
}

/// A block gives its first variable, or NULL where it has none.
#[tactic(auto, using(crate::proofs::Firsts::first_is))]
fn block_value(m: &mut Machine) -> Result<(), AllocError>
    ensures { IfOk result (λ _. Does (λ stack s. settled stack (ends (Gives (first_of_block s)) s)) m.old m.new) }
{
    let value = match m.value(0, 0) {
        Some(value) => value.copy()?,
        None => Value::Null,
    };
    m.set_mode(Mode::Coming(NodeResult::Gives(value)));
    Ok(())
}

/// An assignment gives NULL.
fn assigned(
    m: &mut Machine,
    n: NodeId,
    meaning: Meaning,
    values: &[Value],
) -> Result<(), AllocError>
    ensures { IfOk result (λ _. Does (λ stack s. settled stack (on_one n values.now (λ a t. ends (Gives Null) (assigned meaning a t)) s)) m.old m.new) }
{
    match values {
        [value] => assign(m, meaning, value.copy()?, Value::Null),
        _ => m.set_mode(Mode::Coming(NodeResult::Faults(Fault::WrongKind, n))),
    }
    Ok(())
}

/// A call passes no arguments and drops the result.
fn called(
    alloc: Global,
    m: &mut Machine,
    program: &Program,
    n: NodeId,
    meaning: Meaning,
) -> Result<(), AllocError>
    ensures { IfOk result (λ _. Does (λ stack s. name_called program.now n meaning stack s) m.old m.new) }
{
    match meaning {
        Meaning::Item(item) => {
            m.push(Pending::Dropping)?;
            call(alloc, m, program, n, item, &[])
        }
        _ => {
            m.set_mode(Mode::Coming(NodeResult::Faults(Fault::Undefined, n)));
            Ok(())
        }
    }
}

/// `!` writes a value and gives NULL.
fn written(
    alloc: Global,
    m: &mut Machine,
    program: &Program,
    n: NodeId,
    values: &[Value],
) -> Result<(), AllocError>
    ensures { IfOk result (λ _. Does (λ stack s. settled stack (on_one n values.now (λ a. written n (table.show (item_names program.now) a) Null) s)) m.old m.new) }
{
    match values {
        [value] => write(alloc, m, program, n, value, Value::Null),
        _ => {
            m.set_mode(Mode::Coming(NodeResult::Faults(Fault::WrongKind, n)));
            Ok(())
        }
    }
}

fn odd_at(m: &mut Machine, n: NodeId, values: &[Value])
    ensures { Does (λ stack s. settled stack (on_one n values.now (λ a. answered n (table.odd a)) s)) m.old m.new }
{
    match values {
        [value] => answer(m, n, odd(value)),
        _ => m.set_mode(Mode::Coming(NodeResult::Faults(Fault::WrongKind, n))),
    }
}

fn plus_at(m: &mut Machine, n: NodeId, values: &[Value])
    ensures { Does (λ stack s. settled stack (on_one n values.now (λ a. answered n (table.plus a)) s)) m.old m.new }
{
    match values {
        [value] => answer(m, n, plus(value)),
        _ => m.set_mode(Mode::Coming(NodeResult::Faults(Fault::WrongKind, n))),
    }
}

fn minus_at(m: &mut Machine, n: NodeId, values: &[Value])
    ensures { Does (λ stack s. settled stack (on_one n values.now (λ a. answered n (table.minus a)) s)) m.old m.new }
{
    match values {
        [value] => answer(m, n, minus(value)),
        _ => m.set_mode(Mode::Coming(NodeResult::Faults(Fault::WrongKind, n))),
    }
}
