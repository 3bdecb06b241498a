//! A whole run.
ghost use Rattle.std.specs.Prelude.{◌≡◌, ◌+◌, ◌^◌, ◌<◌, ◌≤◌, [], ℕ, length, IfOk, Some};
ghost use Rattle.pd_tree.specs.Program.{item_at};
ghost use Rattle.pd_tree.specs.WellFormed.{IsWellFormed};
ghost use Rattle.pd_machine.specs.Held.{IsOver};
ghost use Rattle.pd_meaning.specs.Meaning.{meaning_of};
ghost use Rattle.pd_meaning.specs.Steps.{with_events};
ghost use Rattle.pd_meaning.specs.Weight.{weight};
ghost use Rattle.pd_eval.specs.Watching.{IsCounted, IsOrderlyIn, IsRan, Stands};

use crate::opening::open_machine;
use crate::turning::turn;
use crate::watching::{Watcher, serve};
use pd_cross::root_of;
use pd_machine::{Machine, Turn};
use pd_tree::Program;
use pd_values::{End, NodeId, Text, Value};
use std::alloc::{AllocError, Global};

/// What a run leaves: its output, its end, the fuel that it used, and the number of its events.
#[derive(Drop)]
pub struct Ran {
    pub output: Text,
    pub end: End,
    pub used: u32,
    pub events: u32,
}

/// Runs a program from an item with so much fuel, at most 16,777,216, under a watcher that was told nothing before and
/// is ready for a program of so many nodes.
/// Where it answers, the watcher was told exactly the events that the program means under the verdicts that it keeps,
/// and the answer is the output, the end, the fuel used and the number of events that it means. Where memory runs out,
/// or the watcher errs, it gives `AllocError`, and the watcher has been told some events. In each case what the
/// watcher's calls never change (`fixed`) is as before.
pub fn run<W: Watcher>(
    alloc: Global,
    program: &Program,
    entry: u32,
    fuel: u32,
    w: &mut W,
) -> Result<Ran, AllocError>
    requires fuel { fuel ≤ 2 ^ 24 }
    requires nodes { W.nodes (W.fixed w.old) ≡ length program.now.nodes }
    requires ready { W.ready w.old }
    requires no_events { W.events w.old ≡ [] }
    requires no_verdicts { W.kept w.old ≡ [] }
    ensures ready { IfOk result (λ _. W.ready w.new) }
    ensures ran { IfOk result (λ r. IsRan r (W.events w.new) (meaning_of program.now entry fuel (W.kept w.new))) }
    ensures fixed { W.fixed w.new ≡ W.fixed w.old }
{
    program.is_linked();
    match root_of(program, entry) {
        Some(root) => run_from(alloc, program, root, fuel, w),
        None => Ok(Ran {
            output: Text::of(String::new(alloc)),
            end: End::Done(Value::Null),
            used: 0,
            events: 0,
        }),
    }
}

/// Runs a program from a root: a function, a procedure or a main block.
fn run_from<W: Watcher>(
    alloc: Global,
    program: &Program,
    root: NodeId,
    fuel: u32,
    w: &mut W,
) -> Result<Ran, AllocError>
    requires fuel { fuel ≤ 2 ^ 24 }
    requires root { root < length program.now.nodes }
    requires linked { IsWellFormed program.now }
    requires nodes { W.nodes (W.fixed w.old) ≡ length program.now.nodes }
    requires ready { W.ready w.old }
    requires no_events { W.events w.old ≡ [] }
    requires no_verdicts { W.kept w.old ≡ [] }
    ensures ready { IfOk result (λ _. W.ready w.new) }
    ensures ran { IfOk result (λ r. (entry : ℕ) → (item_at program.now entry).root ≡ Some root → IsRan r (W.events w.new) (meaning_of program.now entry fuel (W.kept w.new))) }
    ensures fixed { W.fixed w.new ≡ W.fixed w.old }
{
    let mut m = open_machine(alloc, program, root, fuel)?;
    'turns: while !m.is_over() {
        step(alloc, &mut m, program, w)?;
    }
    let (output, end, used, events) = m.finish();
    Ok(Ran {
        output,
        end,
        used,
        events,
    })
}

/// One turn, whose event is told to the watcher, and whose verdict is obeyed.
fn step<W: Watcher>(
    alloc: Global,
    m: &mut Machine,
    program: &Program,
    w: &mut W,
) -> Result<(), AllocError>
    requires going { IsOver m.old → ⊥ }
    requires room { m.old.told + 1 < 2 ^ 32 }
    requires linked { IsWellFormed program.now }
    requires nodes { W.nodes (W.fixed w.old) ≡ length program.now.nodes }
    requires ready { W.ready w.old }
    requires counted { IsCounted (W.events w.old) (W.kept w.old) m.old }
    requires orderly { IsOrderlyIn program.now (with_events m.old (W.events w.old)) }
    ensures ready { IfOk result (λ _. W.ready w.new) }
    ensures orderly { IfOk result (λ _. IsOrderlyIn program.now (with_events m.new (W.events w.new))) }
    ensures stands { IfOk result (λ _. (fuel root : ℕ) → Stands program.now fuel root (W.events w.old) (W.kept w.old) m.old → Stands program.now fuel root (W.events w.new) (W.kept w.new) m.new) }
    ensures lowers { IfOk result (λ _. weight (with_events m.new (W.events w.new)) < weight (with_events m.old (W.events w.old))) }
    ensures fixed { W.fixed w.new ≡ W.fixed w.old }
{
    match turn(alloc, m, program)? {
        Turn::Quiet => Ok(()),
        Turn::Tells(event) => serve(m, program, event, w),
    }
}
