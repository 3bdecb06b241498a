//! One turn of a machine.
ghost use Rattle.std.specs.Prelude.{◌+◌, ◌^◌, ◌<◌, [], IfOk};
ghost use Rattle.pd_tree.specs.Program.{node_at};
ghost use Rattle.pd_machine.specs.Held.{IsOver};
ghost use Rattle.pd_machine.specs.declared.event.Verdict.TheVariants.{Go};
ghost use Rattle.pd_meaning.specs.Machine.{mode_turn, starting_turn};
ghost use Rattle.pd_meaning.specs.Telling.{DoesTelling, due_at};
ghost use Rattle.pd_eval.specs.Tagged.{IsComing};

use crate::entering::enter;
use crate::results::come;
use crate::starting::start;
use pd_machine::{Machine, Mode, Turn};
use pd_tree::Program;
use pd_values::NodeId;
use std::alloc::{AllocError, Global};

/// One turn: a node is entered, or begins its work, or a result goes to what waits for it. At most one event
/// is told.
pub fn turn(alloc: Global, m: &mut Machine, program: &Program) -> Result<Turn, AllocError>
    requires room { m.old.told + 1 < 2 ^ 32 }
    requires going { IsOver m.old → ⊥ }
    ensures { IfOk result (λ t. DoesTelling program.now (λ v e. due_at program.now v m.old.mode m.old.stack m.old.left e) (λ stack s. mode_turn program.now [] m.old.mode stack s) m.old m.new t) }
{
    match m.mode() {
        Mode::Entering(n) => {
            let n = *n;
            enter(m, program, n)
        }
        Mode::Starting(n) => {
            let n = *n;
            begin(alloc, m, program, n)
        }
        Mode::Coming(_) => arrive(alloc, m, program),
    }
}

/// A result goes to what waits for it.
fn arrive(alloc: Global, m: &mut Machine, program: &Program) -> Result<Turn, AllocError>
    requires room { m.old.told + 1 < 2 ^ 32 }
    requires going { IsOver m.old → ⊥ }
    requires comes { IsComing m.old.mode }
    ensures { IfOk result (λ t. DoesTelling program.now (λ v e. due_at program.now v m.old.mode m.old.stack m.old.left e) (λ stack s. mode_turn program.now [] m.old.mode stack s) m.old m.new t) }
{
    match m.take_mode() {
        Mode::Coming(came) => come(alloc, m, program, came),
        _ => unreachable!(),
    }
}

/// A node begins its work, and tells nothing.
fn begin(alloc: Global, m: &mut Machine, program: &Program, n: NodeId) -> Result<Turn, AllocError>
    ensures { IfOk result (λ t. DoesTelling program.now (λ v e. Go) (λ stack s. starting_turn program.now n (node_at program.now n).kind (node_at program.now n).children stack s) m.old m.new t) }
{
    start(alloc, m, program, n)?;
    Ok(Turn::Quiet)
}
