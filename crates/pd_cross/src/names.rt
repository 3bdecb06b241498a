//! Names at a node.
ghost use Rattle.std.specs.Prelude.{◌≡◌, IfOk};
ghost use Rattle.pd_meaning.specs.Meaning.{assigned, ends, named};
ghost use Rattle.pd_meaning.specs.Machine.{settled};
ghost use Rattle.pd_meaning.specs.Steps.{Does};

use pd_machine::{Machine, Mode, NodeResult};
use pd_tree::Meaning;
use pd_values::{Fault, NodeId, Value};
use std::alloc::AllocError;

/// A name is read at a node: a variable's value, or an item; `Undefined` where it means nothing.
pub fn read(m: &mut Machine, n: NodeId, meaning: Meaning) -> Result<(), AllocError>
    ensures { IfOk result (λ _. Does (λ stack s. settled stack (named n meaning s)) m.old m.new) }
{
    match meaning {
        Meaning::Local { up, slot } => {
            let value = match m.value(up, slot) {
                Some(value) => value.copy()?,
                None => Value::Null,
            };
            m.set_mode(Mode::Coming(NodeResult::Gives(value)));
        }
        Meaning::Item(item) => m.set_mode(Mode::Coming(NodeResult::Gives(Value::Func(item)))),
        Meaning::Nothing => m.set_mode(Mode::Coming(NodeResult::Faults(Fault::Undefined, n))),
    }
    Ok(())
}

/// A value is assigned to what a name means, and the node gives the other value; a name of no variable changes
/// nothing.
pub fn assign(m: &mut Machine, meaning: Meaning, value: Value, gives: Value)
    ensures { Does (λ stack s. settled stack (ends (NodeResult.Gives gives) (assigned meaning value s))) m.old m.new }
{
    if let Meaning::Local { up, slot } = meaning {
        m.set_value(up, slot, value);
    }
    m.set_mode(Mode::Coming(NodeResult::Gives(gives)));
}
