//! Why a session is suspended at an event.
ghost use Rattle.std.specs.Prelude.{◌≡◌, IfOk, OnOk};
ghost use Rattle.pd_tree.specs.Program.{has_tag, node_at};
ghost use Rattle.pd_suspend.specs.Steps.{is_enter as begins, gives};
ghost use Rattle.pd_suspend.specs.Counters.{moved_any};
ghost use Rattle.pd_suspend.specs.Stops.{anchor_of};
ghost use Rattle.pd_guest.specs.Moment.{IsStanding};
ghost use Rattle.pd_guest.specs.Reasoning.{reasons_seen};
ghost use Rattle.pd_guest.specs.Asking.{IsPlaceOf};

use crate::hits::hits_of;
use crate::moment::Moment;
use pd_board::Sight;
use pd_machine::{Event, EventKind};
use pd_suspend::{Anchor, Reason, Stepper};
use pd_tree::Program;
use pd_values::{Items, Tag};
use std::alloc::{AllocError, Global};

/// What an event is to all sessions: whether it stands before a statement or after a call, and whether it is a statement
/// at which every session halts.
#[derive(Clone, Copy, Drop)]
pub struct Place {
    pub before: bool,
    pub after: bool,
    pub halts: bool,
}

/// What an event is to all sessions.
pub(crate) fn place_of(m: &Moment<'_, '_>) -> Place
    ensures { IsPlaceOf m.now result }
{
    let enters = is_enter(m.event);
    Place {
        before: enters && has(m.program, m.event, Tag::Statement),
        after: is_return(m.event) && has(m.program, m.event, Tag::Call),
        halts: enters && has(m.program, m.event, Tag::AlwaysHalt),
    }
}

/// Whether an activation begins.
fn is_enter(event: &Event) -> bool
    ensures { result ≡ begins event.now.kind }
{
    match event.kind {
        EventKind::Enter => true,
        EventKind::Return(_) | EventKind::Leave(_) => false,
    }
}

/// Whether an activation has given its value.
fn is_return(event: &Event) -> bool
    ensures { result ≡ gives event.now.kind }
{
    match event.kind {
        EventKind::Return(_) => true,
        EventKind::Enter | EventKind::Leave(_) => false,
    }
}

/// Whether the event's node has a tag; a number that the program doesn't have is of no tag.
#[tactic(auto, using(std::proofs::lemmas::List::get_or_past))]
fn has(program: &Program, event: &Event, tag: Tag) -> bool
    ensures { result ≡ has_tag (node_at program.now event.now.node).tags tag }
{
    event.node.0 < program.nodes() && program.has(event.node, tag)
}

/// On which side of its node the run is suspended.
pub(crate) fn anchor(event: &Event) -> Anchor
    ensures { result ≡ anchor_of event.now.kind }
{
    match event.kind {
        EventKind::Enter => Anchor::Before,
        EventKind::Return(_) | EventKind::Leave(_) => Anchor::After,
    }
}

/// The reasons of a session at an event, of which this was seen: its hits, by binding; the end of its step; and a
/// statement at which every session halts. The session's step sees the event.
pub(crate) fn reasons_of(
    alloc: Global,
    m: &Moment<'_, '_>,
    sights: &[Sight],
    session: u32,
    stepper: &mut Stepper,
    place: Place,
) -> Result<Items<Reason>, AllocError>
    requires { IsStanding m.now }
    ensures reasons { IfOk result (λ r. r ≡ reasons_seen m.now sights.now session stepper.old place) }
    ensures moved { OnOk result (stepper.new ≡ moved_any stepper.old place.before place.after m.now.told.event.depth) }
{
    let mut reasons = hits_of(alloc, m, sights, session)?;
    if stepper.see(place.before, place.after, m.event.depth) {
        reasons.push(Reason::Step)?;
    }
    if place.halts {
        reasons.push(Reason::Halt)?;
    }
    Ok(reasons)
}
