//! A result comes to what waits for it.
ghost use Rattle.std.specs.Prelude.{◌≡◌, ◌+◌, ◌++◌, ◌∷◌, ◌^◌, ◌<◌, [], true, false, IfOk};
ghost use Rattle.pd_values.specs.declared.value.Value.TheVariants.{Bool as Truth, Null};
ghost use Rattle.pd_tree.specs.Program.{Program as Linked};
ghost use Rattle.pd_machine.specs.declared.event.Verdict.TheVariants.{Go};
ghost use Rattle.pd_machine.specs.declared.run.Mode.TheVariants.{Coming, Entering};
ghost use Rattle.pd_machine.specs.declared.run.NodeResult.TheVariants.{Gives};
ghost use Rattle.pd_machine.specs.declared.run.Pending.TheVariants.{Leaving, Testing, Turning};
ghost use Rattle.pd_meaning.specs.Meaning.{caught, ends, exit, popped};
ghost use Rattle.pd_meaning.specs.Machine.{by_truth, coming_turn, machine, other_came, settled, value_came};
ghost use Rattle.pd_meaning.specs.Steps.{Does};
ghost use Rattle.pd_meaning.specs.Telling.{DoesTelling, due_at, due_on_value};
ghost use Rattle.pd_eval.specs.Tagged.{IsOther, call_ended, cause_of, jump_came, side_came, value_of};

use crate::starting::{give_null, next_part};
use pd_machine::{Cause, EventKind, Frame, Machine, Mode, NodeResult, Pending, Turn};
use pd_tree::Program;
use pd_values::{Fault, Items, NodeId, Value};
use std::alloc::{AllocError, Global};

/// A result goes to what waits on top.
#[tactic(auto, using(crate::proofs::Came::value_comes, crate::proofs::Came::other_is, crate::proofs::Came::due_on_result))]
pub fn come(
    alloc: Global,
    m: &mut Machine,
    program: &Program,
    came: NodeResult,
) -> Result<Turn, AllocError>
    requires room { m.old.told + 1 < 2 ^ 32 }
    requires waits { m.old.stack ≡ [] → ⊥ }
    ensures { IfOk result (λ t. DoesTelling program.now (λ v e. due_at program.now v (Coming came) m.old.stack m.old.left e) (λ stack s. coming_turn program.now [] came stack s) m.old m.new t) }
{
    let Some(top) = m.pop() else {
        unreachable!();
    };
    match split(came) {
        Ok(value) => value_comes(alloc, m, program, top, value),
        Err(other) => other_comes(alloc, m, top, other),
    }
}

/// A result as a value, or as another result.
fn split(came: NodeResult) -> Result<Value, NodeResult>
    ensures { result ≡ value_of came }
{
    match came {
        NodeResult::Gives(value) => Ok(value),
        NodeResult::Returns(value) => Err(NodeResult::Returns(value)),
        NodeResult::Breaks => Err(NodeResult::Breaks),
        NodeResult::Continues => Err(NodeResult::Continues),
        NodeResult::Faults(fault, node) => Err(NodeResult::Faults(fault, node)),
        NodeResult::Unwinds(frame, give) => Err(NodeResult::Unwinds(frame, give)),
        NodeResult::Stops(cutoff) => Err(NodeResult::Stops(cutoff)),
    }
}

/// A value comes to what waits.
#[tactic(auto, using(crate::proofs::Came::side_is))]
fn value_comes(
    alloc: Global,
    m: &mut Machine,
    program: &Program,
    top: Pending,
    value: Value,
) -> Result<Turn, AllocError>
    requires { m.old.told + 1 < 2 ^ 32 }
    ensures { IfOk result (λ t. DoesTelling program.now (λ v e. due_on_value program.now v (top ∷ []) e) (λ stack s. value_came program.now [] top value stack s) m.old m.new t) }
{
    match top {
        Pending::Leaving(n, opened) => give(m, program, n, opened, value),
        Pending::Operand(n, values, i) => {
            let values = with_value(values, value)?;
            next_part(alloc, m, program, n, i, values)?;
            Ok(Turn::Quiet)
        }
        Pending::Catching => {
            pass(m, value);
            Ok(Turn::Quiet)
        }
        Pending::Choosing(n, block) => {
            chosen(m, &value, n, block);
            Ok(Turn::Quiet)
        }
        Pending::ChoosingBetween(n, block, other) => {
            chosen_between(m, &value, n, block, other);
            Ok(Turn::Quiet)
        }
        Pending::Testing(n, condition, block) => {
            tested(m, &value, n, condition, block)?;
            Ok(Turn::Quiet)
        }
        Pending::Turning(n, condition, block) => {
            test(m, n, condition, block)?;
            Ok(Turn::Quiet)
        }
        Pending::LeftSide(by, n, right) => {
            left_came(m, &value, by, n, right)?;
            Ok(Turn::Quiet)
        }
        Pending::RightSide(n) => {
            right_came(m, &value, n);
            Ok(Turn::Quiet)
        }
        Pending::InCall(_, _) => {
            call_gave(m, value);
            Ok(Turn::Quiet)
        }
        Pending::Dropping => {
            give_null(m);
            Ok(Turn::Quiet)
        }
    }
}

/// A value is passed on.
fn pass(m: &mut Machine, value: Value)
    ensures { Does (λ stack s. machine (Coming (Gives value)) stack s) m.old m.new }
{
    m.set_mode(Mode::Coming(NodeResult::Gives(value)));
}

/// A call has its value: its frame is removed.
fn call_gave(m: &mut Machine, value: Value)
    ensures { Does (λ stack s. machine (Coming (Gives value)) stack (popped s)) m.old m.new }
{
    m.pop_frame();
    m.set_mode(Mode::Coming(NodeResult::Gives(value)));
}

/// The condition of an `if` with one block has its value.
fn chosen(m: &mut Machine, value: &Value, n: NodeId, block: NodeId)
    ensures { Does (λ stack s. by_truth n value.now (machine (Entering block) stack s) (machine (Coming (Gives Null)) stack s) stack s) m.old m.new }
{
    branch(m, value, n, Mode::Entering(block), null());
}

/// The condition of an `if` with two blocks has its value.
fn chosen_between(m: &mut Machine, value: &Value, n: NodeId, block: NodeId, other: NodeId)
    ensures { Does (λ stack s. by_truth n value.now (machine (Entering block) stack s) (machine (Entering other) stack s) stack s) m.old m.new }
{
    branch(m, value, n, Mode::Entering(block), Mode::Entering(other));
}

/// The right side of an `||` or an `&&` has its value.
fn right_came(m: &mut Machine, value: &Value, n: NodeId)
    ensures { Does (λ stack s. by_truth n value.now (machine (Coming (Gives (Truth true))) stack s) (machine (Coming (Gives (Truth false))) stack s) stack s) m.old m.new }
{
    branch(m, value, n, truth(true), truth(false));
}

/// The values of parts, with one more.
fn with_value(values: Items<Value>, value: Value) -> Result<Items<Value>, AllocError>
    ensures { IfOk result (λ xs. xs ≡ values ++ value ∷ []) }
{
    let mut all = values;
    all.push(value)?;
    Ok(all)
}

/// A node comes to NULL.
fn null() -> Mode
    ensures { result ≡ Coming (Gives Null) }
{
    Mode::Coming(NodeResult::Gives(Value::Null))
}

/// A node comes to a truth value.
fn truth(holds: bool) -> Mode
    ensures { result ≡ Coming (Gives (Truth holds)) }
{
    Mode::Coming(NodeResult::Gives(Value::Bool(holds)))
}

/// A value leaves an activation, which tells its Return.
#[tactic(auto, using(crate::proofs::Entered::gave))]
fn give(
    m: &mut Machine,
    program: &Program,
    n: NodeId,
    opened: u32,
    value: Value,
) -> Result<Turn, AllocError>
    requires { m.old.told + 1 < 2 ^ 32 }
    ensures { IfOk result (λ t. DoesTelling program.now (λ v e. due_on_value program.now v (Leaving n opened ∷ []) e) (λ stack s. value_came program.now [] (Leaving n opened) value stack s) m.old m.new t) }
{
    let told = value.copy()?;
    m.set_mode(Mode::Coming(NodeResult::Gives(value)));
    Ok(Turn::Tells(m.tell(n, opened, EventKind::Return(told))))
}

/// What is done next by a truth value; `WrongKind` at the node for another value.
fn branch(m: &mut Machine, value: &Value, n: NodeId, if_true: Mode, if_false: Mode)
    ensures { Does (λ stack s. by_truth n value.now (machine if_true stack s) (machine if_false stack s) stack s) m.old m.new }
{
    match value {
        Value::Bool(true) => m.set_mode(if_true),
        Value::Bool(false) => m.set_mode(if_false),
        _ => m.set_mode(Mode::Coming(NodeResult::Faults(Fault::WrongKind, n))),
    }
}

/// The condition of a `while` is entered.
fn test(m: &mut Machine, n: NodeId, condition: NodeId, block: NodeId) -> Result<(), AllocError>
    ensures { IfOk result (λ _. Does (λ stack s. machine (Entering condition) (Testing n condition block ∷ stack) s) m.old m.new) }
{
    m.push(Pending::Testing(n, condition, block))?;
    m.set_mode(Mode::Entering(condition));
    Ok(())
}

/// The condition of a `while` has its value.
fn tested(
    m: &mut Machine,
    value: &Value,
    n: NodeId,
    condition: NodeId,
    block: NodeId,
) -> Result<(), AllocError>
    ensures { IfOk result (λ _. Does (λ stack s. by_truth n value.now (machine (Entering block) (Turning n condition block ∷ stack) s) (machine (Coming (Gives Null)) stack s) stack s) m.old m.new) }
{
    match value {
        Value::Bool(true) => {
            m.push(Pending::Turning(n, condition, block))?;
            m.set_mode(Mode::Entering(block));
            Ok(())
        }
        Value::Bool(false) => {
            m.set_mode(null());
            Ok(())
        }
        _ => {
            m.set_mode(Mode::Coming(NodeResult::Faults(Fault::WrongKind, n)));
            Ok(())
        }
    }
}

/// The left side of an `||` (at true) or an `&&` (at false) has its value.
fn left_came(
    m: &mut Machine,
    value: &Value,
    by: bool,
    n: NodeId,
    right: NodeId,
) -> Result<(), AllocError>
    ensures { IfOk result (λ _. Does (λ stack s. side_came by n right value.now stack s) m.old m.new) }
{
    match (by, value) {
        (true, Value::Bool(true)) | (false, Value::Bool(false)) => {
            m.set_mode(truth(by));
            Ok(())
        }
        (true, Value::Bool(false)) | (false, Value::Bool(true)) => {
            m.push(Pending::RightSide(n))?;
            m.set_mode(Mode::Entering(right));
            Ok(())
        }
        _ => {
            m.set_mode(Mode::Coming(NodeResult::Faults(Fault::WrongKind, n)));
            Ok(())
        }
    }
}

/// A result other than a value comes to what waits.
#[inline(never)]
#[tactic(auto, using(crate::proofs::Came::jump_is, crate::proofs::Came::ended_is))]
fn other_comes(
    alloc: Global,
    m: &mut Machine,
    top: Pending,
    other: NodeResult,
) -> Result<Turn, AllocError>
    requires room { m.old.told + 1 < 2 ^ 32 }
    requires other { IsOther other }
    ensures { (p : Linked) → IfOk result (λ t. DoesTelling p (λ v e. Go) (λ stack s. other_came p [] top other stack s) m.old m.new t) }
{
    match top {
        Pending::Leaving(n, opened) => Ok(leave(m, n, opened, other)),
        Pending::Catching => {
            catch(m, other);
            Ok(Turn::Quiet)
        }
        Pending::Turning(n, condition, block) => {
            turn_over(m, n, condition, block, other)?;
            Ok(Turn::Quiet)
        }
        Pending::InCall(number, frame) => {
            call_over(alloc, m, number, frame, other)?;
            Ok(Turn::Quiet)
        }
        _ => {
            m.set_mode(Mode::Coming(other));
            Ok(Turn::Quiet)
        }
    }
}

/// Another result leaves an activation, which tells its Leave; a stop tells nothing.
#[tactic(auto, using(crate::proofs::Came::left, crate::proofs::Came::stopped))]
fn leave(m: &mut Machine, n: NodeId, opened: u32, other: NodeResult) -> Turn
    requires room { m.old.told + 1 < 2 ^ 32 }
    requires other { IsOther other }
    ensures { (p : Linked) → DoesTelling p (λ v e. Go) (λ stack s. settled stack (exit p [] n opened (ends other s))) m.old m.new result }
{
    let cause = cause_of(&other);
    m.set_mode(Mode::Coming(other));
    match cause {
        Some(cause) => Turn::Tells(m.tell(n, opened, EventKind::Leave(cause))),
        None => Turn::Quiet,
    }
}

/// With what cause an activation leaves; none for a value or a stop.
fn cause_of(came: &NodeResult) -> Option<Cause>
    ensures { result ≡ cause_of came.now }
{
    match came {
        NodeResult::Returns(_) => Some(Cause::Returning),
        NodeResult::Breaks => Some(Cause::Breaking),
        NodeResult::Continues => Some(Cause::Continuing),
        NodeResult::Faults(fault, _) => Some(Cause::Faulting(*fault)),
        NodeResult::Unwinds(_, _) => Some(Cause::Unwinding),
        NodeResult::Gives(_) | NodeResult::Stops(_) => None,
    }
}

/// A body takes a return.
fn catch(m: &mut Machine, other: NodeResult)
    ensures { Does (λ stack s. settled stack (caught (ends other s))) m.old m.new }
{
    match other {
        NodeResult::Returns(value) => m.set_mode(Mode::Coming(NodeResult::Gives(value))),
        other => m.set_mode(Mode::Coming(other)),
    }
}

/// The block of a `while` comes to a jump: a continue leads to the next turn, and a break ends the loop.
fn turn_over(
    m: &mut Machine,
    n: NodeId,
    condition: NodeId,
    block: NodeId,
    other: NodeResult,
) -> Result<(), AllocError>
    ensures { IfOk result (λ _. Does (λ stack s. jump_came n condition block other stack s) m.old m.new) }
{
    match other {
        NodeResult::Continues => {
            m.push(Pending::Testing(n, condition, block))?;
            m.set_mode(Mode::Entering(condition));
            Ok(())
        }
        NodeResult::Breaks => {
            m.set_mode(null());
            Ok(())
        }
        other => {
            m.set_mode(Mode::Coming(other));
            Ok(())
        }
    }
}

/// A call is over without a value: its frame is removed. An unwinding to this very frame makes the call again,
/// or gives it a value.
#[tactic(auto, using(crate::proofs::Came::made_again, crate::proofs::Came::given, crate::proofs::Came::passed))]
fn call_over(
    alloc: Global,
    m: &mut Machine,
    number: u32,
    frame: Frame,
    other: NodeResult,
) -> Result<(), AllocError>
    ensures { IfOk result (λ _. Does (λ stack s. call_ended number frame other stack s) m.old m.new) }
{
    m.pop_frame();
    match other {
        NodeResult::Unwinds(to, give) => {
            if to != number {
                m.set_mode(Mode::Coming(NodeResult::Unwinds(to, give)));
                return Ok(());
            }
            match give {
                Some(value) => {
                    m.set_mode(Mode::Coming(NodeResult::Gives(value)));
                    Ok(())
                }
                None => m.begin_call(alloc, frame),
            }
        }
        other => {
            m.set_mode(Mode::Coming(other));
            Ok(())
        }
    }
}
