//! The entry of a node.
ghost use Rattle.std.specs.Prelude.{◌≡◌, ◌+◌, ◌^◌, ◌<◌, [], IfOk};
ghost use Rattle.pd_tree.specs.Program.{node_at};
ghost use Rattle.pd_meaning.specs.Machine.{entered, entering_turn};
ghost use Rattle.pd_meaning.specs.Telling.{DoesTelling, due_on_enter, due_on_tags};
ghost use Rattle.pd_eval.specs.Tagged.{is_tagged};

use pd_machine::{Cutoff, EventKind, Machine, Mode, NodeResult, Pending, Turn};
use pd_tree::Program;
use pd_values::{NodeId, Tag};
use std::alloc::AllocError;

/// A node is entered: with no fuel left the run stops; else one unit is taken, and a node with tags tells its
/// Enter.
pub fn enter(m: &mut Machine, program: &Program, n: NodeId) -> Result<Turn, AllocError>
    requires { m.old.told + 1 < 2 ^ 32 }
    ensures { IfOk result (λ t. DoesTelling program.now (λ v e. due_on_enter program.now v m.old.left n (node_at program.now n).tags e) (λ stack s. entering_turn program.now [] s.left n stack s) m.old m.new t) }
{
    if m.take_fuel() {
        open(m, program, n)
    } else {
        m.set_mode(Mode::Coming(NodeResult::Stops(Cutoff::SpentFuel)));
        Ok(Turn::Quiet)
    }
}

/// A node that took its fuel begins.
#[tactic(auto, using(crate::proofs::Entered::plain, crate::proofs::Entered::tagged, crate::proofs::Entered::due_plain, crate::proofs::Entered::due_tagged))]
fn open(m: &mut Machine, program: &Program, n: NodeId) -> Result<Turn, AllocError>
    requires { m.old.told + 1 < 2 ^ 32 }
    ensures { IfOk result (λ t. DoesTelling program.now (λ v e. due_on_tags program.now v n (node_at program.now n).tags e) (λ stack s. entered program.now [] n (node_at program.now n).tags stack s) m.old m.new t) }
{
    m.set_mode(Mode::Starting(n));
    if !has_tags(program, n) {
        return Ok(Turn::Quiet);
    }
    let opened = m.told();
    m.push(Pending::Leaving(n, opened))?;
    Ok(Turn::Tells(m.tell(n, opened, EventKind::Enter)))
}

/// Whether a node has a tag.
#[tactic(auto, using(std::proofs::lemmas::List::get_or_past))]
fn has_tags(program: &Program, n: NodeId) -> bool
    ensures { result ≡ is_tagged (node_at program.now n).tags }
{
    n.0 < program.nodes() && any(program.tags(n))
}

/// Whether there is a tag.
fn any(tags: &[Tag]) -> bool
    ensures { result ≡ is_tagged tags.now }
{
    match tags {
        [] => false,
        [_, ..] => true,
    }
}
