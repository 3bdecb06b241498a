//! A node that was entered begins its work.
ghost use Rattle.std.specs.Prelude.{◌≡◌, ◌-◌, ◌∷◌, ◌<◌, [], length, slice_get, IfOk, IsFalse, IsSome, IsTrue};
ghost use Rattle.pd_tree.specs.Program.{node_at};
ghost use Rattle.pd_meaning.specs.Machine.{choice_begun, combining, either_begun, last_begun, loop_begun, machine, parts_begun, starting_turn};
ghost use Rattle.pd_machine.specs.declared.run.Pending.TheVariants.{Catching, Operand};
ghost use Rattle.pd_machine.specs.declared.run.Mode.TheVariants.{Coming, Entering};
ghost use Rattle.pd_machine.specs.declared.run.NodeResult.TheVariants.{Gives};
ghost use Rattle.pd_values.specs.declared.value.Value.TheVariants.{Null};
ghost use Rattle.pd_meaning.specs.Steps.{Does};
ghost use Rattle.pd_pl0_step.specs.Pl0.{IsPl0};
ghost use Rattle.pd_sl_step.specs.Sl.{IsSl};

use pd_machine::{Machine, Mode, NodeResult, Pending};
use pd_tree::{Kind, Program};
use pd_values::{Fault, Items, NodeId, Value};
use std::alloc::{AllocError, Global};

/// A node begins its work: its first part is entered, or it has none and comes to its result.
#[tactic(auto, using(crate::proofs::Started::nothing_started, std::proofs::lemmas::List::get_or_past))]
pub fn start(alloc: Global, m: &mut Machine, program: &Program, n: NodeId) -> Result<(), AllocError>
    ensures { IfOk result (λ _. Does (λ stack s. starting_turn program.now n (node_at program.now n).kind (node_at program.now n).children stack s) m.old m.new) }
{
    if n.0 >= program.nodes() {
        m.set_mode(Mode::Coming(NodeResult::Gives(Value::Null)));
        return Ok(());
    }
    start_node(alloc, m, program, n)
}

/// A node of the program begins its work, by its kind.
fn start_node(
    alloc: Global,
    m: &mut Machine,
    program: &Program,
    n: NodeId,
) -> Result<(), AllocError>
    requires { n < length program.now.nodes }
    ensures { IfOk result (λ _. Does (λ stack s. starting_turn program.now n (node_at program.now n).kind (node_at program.now n).children stack s) m.old m.new) }
{
    let parts = program.children(n);
    match program.kind(n) {
        Kind::SlFunction { .. } | Kind::PlProcedure { .. } => {
            enter_last(m, parts);
            Ok(())
        }
        Kind::SlBody => start_body(alloc, m, program, n),
        Kind::SlIf | Kind::PlIf => choose(m, n, parts),
        Kind::SlWhile | Kind::PlWhile => repeat(m, n, parts),
        Kind::SlOr => decide(m, true, n, parts),
        Kind::SlAnd => decide(m, false, n, parts),
        _ => next_part(alloc, m, program, n, 0, no_values(alloc)),
    }
}

/// A body takes a return of its parts.
fn start_body(
    alloc: Global,
    m: &mut Machine,
    program: &Program,
    n: NodeId,
) -> Result<(), AllocError>
    ensures { IfOk result (λ _. Does (λ stack s. parts_begun program.now n (node_at program.now n).children 0 [] (Catching ∷ stack) s) m.old m.new) }
{
    m.push(Pending::Catching)?;
    next_part(alloc, m, program, n, 0, no_values(alloc))
}

/// The values of no part.
fn no_values(alloc: Global) -> Items<Value>
    ensures { result ≡ [] }
{
    Items::of(Vec::new(alloc))
}

/// The part at place `i` is next, or there is none left, and the node does its work on their values.
#[tactic(auto, using(crate::proofs::Started::no_part, std::proofs::lemmas::List::get_or_past))]
pub fn next_part(
    alloc: Global,
    m: &mut Machine,
    program: &Program,
    n: NodeId,
    i: usize,
    values: Items<Value>,
) -> Result<(), AllocError>
    ensures { IfOk result (λ _. Does (λ stack s. parts_begun program.now n (node_at program.now n).children i values stack s) m.old m.new) }
{
    if n.0 >= program.nodes() {
        give_null(m);
        return Ok(());
    }
    match part_at(program.children(n), i) {
        Some(part) => enter_part(m, n, values, i + 1, part),
        None => combine(alloc, m, program, n, values),
    }
}

/// A part of a node is entered, where the values of the parts before it wait.
fn enter_part(
    m: &mut Machine,
    n: NodeId,
    values: Items<Value>,
    next: usize,
    part: NodeId,
) -> Result<(), AllocError>
    ensures { IfOk result (λ _. Does (λ stack s. machine (Entering part) (Operand n values next ∷ stack) s) m.old m.new) }
{
    m.push(Pending::Operand(n, values, next))?;
    m.set_mode(Mode::Entering(part));
    Ok(())
}

/// A node comes to NULL.
pub fn give_null(m: &mut Machine)
    ensures { Does (λ stack s. machine (Coming (Gives Null)) stack s) m.old m.new }
{
    m.set_mode(Mode::Coming(NodeResult::Gives(Value::Null)));
}

fn part_at(parts: &[NodeId], i: usize) -> Option<NodeId>
    ensures part { result ≡ slice_get parts.now i }
    ensures bound { IsSome result → i < length parts.now }
{
    parts.get(i).copied()
}

/// A node whose parts have these values does its work, by the rules of its language.
fn combine(
    alloc: Global,
    m: &mut Machine,
    program: &Program,
    n: NodeId,
    values: Items<Value>,
) -> Result<(), AllocError>
    requires { n < length program.now.nodes }
    ensures { IfOk result (λ _. Does (λ stack s. combining program.now n (node_at program.now n).kind values stack s) m.old m.new) }
{
    if is_pl0(program.kind(n)) {
        pd_pl0_step::combine(alloc, m, program, n, values)
    } else {
        pd_sl_step::combine(alloc, m, program, n, values)
    }
}

/// Whether a kind is of PL/0.
fn is_pl0(kind: &Kind) -> bool
    ensures pl0 { IsTrue result → IsPl0 kind.now }
    ensures sl { IsFalse result → IsSl kind.now }
{
    match kind {
        Kind::PlProcedure { .. }
        | Kind::PlBody
        | Kind::PlEmpty
        | Kind::PlBegin
        | Kind::PlIf
        | Kind::PlWhile
        | Kind::PlAssign(_)
        | Kind::PlCall(_)
        | Kind::PlWrite
        | Kind::PlOdd
        | Kind::PlBinary(_)
        | Kind::PlPlus
        | Kind::PlMinus
        | Kind::PlName(_)
        | Kind::PlNumber(_) => true,
        _ => false,
    }
}

/// The last part alone is entered: the body of a function or procedure.
#[tactic(auto, using(crate::proofs::Started::last_entered, crate::proofs::Started::none_entered))]
fn enter_last(m: &mut Machine, parts: &[NodeId])
    ensures { Does (λ stack s. last_begun parts.now stack s) m.old m.new }
{
    match last_of(parts) {
        Some(body) => m.set_mode(Mode::Entering(body)),
        None => m.set_mode(Mode::Coming(NodeResult::Gives(Value::Null))),
    }
}

/// The last part, if there is one.
fn last_of(parts: &[NodeId]) -> Option<NodeId>
    ensures { result ≡ slice_get parts.now (length parts.now - 1) }
{
    parts.last().copied()
}

/// An `if`: its condition is entered.
fn choose(m: &mut Machine, n: NodeId, parts: &[NodeId]) -> Result<(), AllocError>
    ensures { IfOk result (λ _. Does (λ stack s. choice_begun n parts.now stack s) m.old m.new) }
{
    match parts {
        [condition, block] => {
            m.push(Pending::Choosing(n, *block))?;
            m.set_mode(Mode::Entering(*condition));
        }
        [condition, block, other] => {
            m.push(Pending::ChoosingBetween(n, *block, *other))?;
            m.set_mode(Mode::Entering(*condition));
        }
        _ => m.set_mode(Mode::Coming(NodeResult::Faults(Fault::WrongKind, n))),
    }
    Ok(())
}

/// A `while`: its condition is entered.
fn repeat(m: &mut Machine, n: NodeId, parts: &[NodeId]) -> Result<(), AllocError>
    ensures { IfOk result (λ _. Does (λ stack s. loop_begun n parts.now stack s) m.old m.new) }
{
    match parts {
        [condition, block] => {
            m.push(Pending::Testing(n, *condition, *block))?;
            m.set_mode(Mode::Entering(*condition));
        }
        _ => m.set_mode(Mode::Coming(NodeResult::Faults(Fault::WrongKind, n))),
    }
    Ok(())
}

/// An `||`, which true decides, or an `&&`, which false decides: its left side is entered.
fn decide(m: &mut Machine, by: bool, n: NodeId, parts: &[NodeId]) -> Result<(), AllocError>
    ensures { IfOk result (λ _. Does (λ stack s. either_begun by n parts.now stack s) m.old m.new) }
{
    match parts {
        [left, right] => {
            m.push(Pending::LeftSide(by, n, *right))?;
            m.set_mode(Mode::Entering(*left));
        }
        _ => m.set_mode(Mode::Coming(NodeResult::Faults(Fault::WrongKind, n))),
    }
    Ok(())
}
