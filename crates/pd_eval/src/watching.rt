//! A watcher of a run, and how its answers are obeyed.
ghost use Rattle.std.specs.Prelude.{◌≡◌, ◌<◌, ◌^◌, ◌++◌, ◌∷◌, [], ℕ, List, IfOk};
ghost use Rattle.pd_tree.specs.Program.{has_tag, node_at};
ghost use Rattle.pd_machine.specs.declared.event.Verdict.{Verdict as Answer};
ghost use Rattle.pd_machine.specs.declared.run.Mode.TheVariants.{Coming};
ghost use Rattle.pd_machine.specs.declared.run.NodeResult.TheVariants.{Unwinds};
ghost use Rattle.pd_machine.specs.Events.{Told, from_outermost, standing};
ghost use Rattle.pd_machine.specs.Held.{scene_of};
ghost use Rattle.pd_meaning.specs.Meaning.{Verdicts};
ghost use Rattle.pd_meaning.specs.Telling.{is_heeded};
ghost use Rattle.pd_order.specs.Order.{IsNext, IsPlaced};
ghost use Rattle.pd_eval.specs.Watching.{GivesNoFunction, HasObeyed, Obeys, keep};

use pd_machine::{Cutoff, Event, EventKind, Machine, Mode, NodeResult, Scene, Verdict};
use pd_tree::Program;
use pd_values::{NodeId, Tag, Value};
use std::alloc::AllocError;

/// Who is told the events of a run, each with the frames at that moment, and answers each with a verdict.
/// A verdict counts on the Enter of a statement and on the Return of a call; elsewhere it has no effect.
pub trait Watcher {
    // The events that it was told, in order.
    ghost events: { Self → List Told };

    // The verdicts that it has given, each at the number of its event.
    ghost kept: { Self → Verdicts };

    // What its calls never change.
    ghost Fixed: { Type 0 };

    ghost fixed: { Self → Self.Fixed };

    // How many nodes the program has whose run it is told.
    ghost nodes: { Self.Fixed → ℕ };

    // It has served each event so far.
    ghost ready: { Self → Type 0 };

    /// The next event of the run, with the frames at it. Its number, below 2^25, is how many events were told before; an
    /// end is that of the innermost open activation; its depth is the number of frames; it and its frames stand at nodes
    /// of the program, and the innermost frame, which there always is, at its own. After an error no event is told any
    /// more.
    fn event(&mut self, event: &Event, scene: &Scene<'_>) -> Result<Verdict, AllocError>
        requires ready { Self.ready self.old }
        requires next { IsNext (events self.old) event.now }
        requires placed { IsPlaced (Self.nodes (Self.fixed self.old)) event.now scene.now }
        requires few { event.now.number < 2 ^ 25 }
        ensures ready { IfOk result (λ _. Self.ready self.new) }
        ensures told { IfOk result (λ v. events self.new ≡ events self.old ++ record { event = event.now; scene = scene.now } ∷ []) }
        ensures kept { IfOk result (λ v. kept self.new ≡ keep (kept self.old) event.now.number v) }
        ensures values { IfOk result GivesNoFunction }
        ensures fixed { Self.fixed self.new ≡ Self.fixed self.old };
}

/// Tells an event to the watcher, and obeys its verdict.
pub fn serve<W: Watcher>(
    m: &mut Machine,
    program: &Program,
    event: Event,
    w: &mut W,
) -> Result<(), AllocError>
    requires ready { W.ready w.old }
    requires next { IsNext (W.events w.old) event }
    requires placed { IsPlaced (W.nodes (W.fixed w.old)) event (standing event.node (scene_of m.old)) }
    requires few { event.number < 2 ^ 25 }
    ensures ready { IfOk result (λ _. W.ready w.new) }
    ensures told { IfOk result (λ _. W.events w.new ≡ W.events w.old ++ record { event = event; scene = standing event.node (scene_of m.old) } ∷ []) }
    ensures kept { IfOk result (λ _. (v : Answer) × (W.kept w.new ≡ keep (W.kept w.old) event.number v) × HasObeyed program.now event v m.old m.new) }
    ensures fixed { W.fixed w.new ≡ W.fixed w.old }
{
    let verdict = w.event(&event, &m.scene(event.node))?;
    heed(m, program, &event, verdict);
    Ok(())
}

/// The verdict on the event that was just told is obeyed, where verdicts count on that event. The tags of the
/// event's node are not asked for where the run goes on in any case.
#[tactic(auto, using(crate::proofs::Entered::goes_on))]
fn heed(m: &mut Machine, program: &Program, event: &Event, verdict: Verdict)
    ensures { HasObeyed program.now event.now verdict m.old m.new }
{
    match verdict {
        Verdict::Go => {}
        verdict => {
            if counts(program, event) {
                obey(m, verdict);
            }
        }
    }
}

/// Whether a verdict counts on an event.
#[tactic(auto, using(std::proofs::lemmas::List::get_or_past))]
fn counts(program: &Program, event: &Event) -> bool
    ensures { result ≡ is_heeded program.now event.now.kind event.now.node }
{
    match event.kind {
        EventKind::Enter => has(program, event.node, Tag::Statement),
        EventKind::Return(_) => has(program, event.node, Tag::Call),
        EventKind::Leave(_) => false,
    }
}

/// Whether a node has a tag; a number that the program doesn't have is of no tag.
#[tactic(auto, using(std::proofs::lemmas::List::get_or_past))]
fn has(program: &Program, n: NodeId, tag: Tag) -> bool
    ensures { result ≡ has_tag (node_at program.now n).tags tag }
{
    n.0 < program.nodes() && program.has(n, tag)
}

/// The verdict on the event that was just told: an unwinding to a frame, or the end.
fn obey(m: &mut Machine, verdict: Verdict)
    ensures { Obeys verdict m.old m.new }
{
    match verdict {
        Verdict::Go => {}
        Verdict::Reenter(k) => unwind(m, k, None),
        Verdict::Return(k, value) => unwind(m, k, Some(value)),
        Verdict::Kill => m.set_mode(Mode::Coming(NodeResult::Stops(Cutoff::WasKilled))),
    }
}

/// An unwinding to frame `k`, where 0 is the innermost; a `k` past the outermost means the outermost. The frame is
/// entered again, or its call gives the value.
fn unwind(m: &mut Machine, k: u32, give: Option<Value>)
    ensures { m.new ≡ record m.old { mode = Coming (Unwinds (from_outermost m.old.frames k) give) } }
{
    let frame = m.depth().saturating_sub(k as usize + 1);
    m.set_mode(Mode::Coming(NodeResult::Unwinds(frame as u32, give)));
}
