//! What a context keeps between its events, and how it serves one.
ghost use Rattle.std.specs.Prelude.{◌≡◌, ℕ, ◌<◌, ◌≤◌, ◌+◌, ◌*◌, ◌^◌, ◌∷◌, ◌++◌, [], true, false, length, IfOk, OnOk};
ghost use Rattle.pd_board.specs.Standing.{NothingDue};
ghost use Rattle.pd_board.specs.Chain.{has};
ghost use Rattle.pd_suspend.specs.Steps.{is_enter};
ghost use Rattle.pd_suspend.specs.Answers.{acts_of};
ghost use Rattle.pd_order.specs.Order.{IsNext};
ghost use Rattle.pd_guest.specs.Delivering.{steady_of};
ghost use Rattle.pd_guest.specs.Keeping.{IsRoomed, IsRoomedFor, IsKeptAt, start_of};
ghost use Rattle.pd_guest.specs.Growing.{IsMore};
ghost use Rattle.pd_guest.specs.Moment.{IsStanding};

use crate::deliver::Deliveries;
use crate::finishing::finish_all;
use crate::first::{FirstBoard, FirstList};
use crate::moment::Moment;
use crate::offering::offer_all;
use pd_board::{Board, Chain};
use pd_eval::Heard;
use pd_machine::{Event, EventKind};
use pd_suspend::{Stepper, Suspension};
use pd_values::{Items, NodeId};
use std::alloc::{AllocError, Global};

/// An activation that is open: the number of its Enter, and the bindings that this was given to, rising.
#[derive(Drop)]
pub struct Opened {
    pub event: u32,
    pub on: Items<u32>,
}

/// What a context keeps between its events.
#[derive(Drop)]
pub struct Progress {
    pub context: u32,
    /// The open activations, the outermost first.
    pub opens: Vec<Opened>,
    pub kept: Deliveries,
    /// The suspensions so far.
    pub stops: Vec<Suspension>,
    /// The step of each session, by its number.
    pub steppers: Vec<Stepper>,
    // For clauses alone: where the board and the answerer stood at first, and what was told.
    pub start: FirstBoard,
    pub first: FirstList,
    pub history: Heard,
}

/// Loads the words of a node, and makes room for so many steps.
fn load<B: Board>(
    alloc: Global,
    board: &mut B,
    steps: u32,
    node: NodeId,
) -> Result<Chain, AllocError>
    requires node { node < (B.standing board.old).nodes }
    requires open { (B.standing board.old).ended ≡ false }
    requires nothing_due { NothingDue (B.standing board.old) }
    requires room { (B.standing board.old).all_loads + 1 < 2 ^ 32 }
    requires draws { steps ≤ (B.standing board.old).draw_share }
    requires answers { (x : ℕ) → x < (B.standing board.old).sessions → steps ≤ (B.standing board.old).answer_share x }
    ensures loaded { IfOk result (λ chain. IsRoomed node (has chain) steps (B.standing board.old) (B.standing board.new)) }
    ensures steady { steady_of (B.standing board.new) ≡ steady_of (B.standing board.old) }
    ensures base { B.base board.new ≡ B.base board.old }
{
    let chain = board.chain(node);
    board.reserve(alloc, steps)?;
    Ok(chain)
}

/// Makes room for so many steps.
fn make_room<B: Board>(alloc: Global, board: &mut B, steps: u32) -> Result<(), AllocError>
    requires draws { steps ≤ (B.standing board.old).draw_share }
    requires answers { (x : ℕ) → x < (B.standing board.old).sessions → steps ≤ (B.standing board.old).answer_share x }
    ensures room { OnOk result (IsRoomedFor steps (B.standing board.old) (B.standing board.new)) }
    ensures steady { steady_of (B.standing board.new) ≡ steady_of (B.standing board.old) }
    ensures base { B.base board.new ≡ B.base board.old }
{
    board.reserve(alloc, steps)
}

/// Serves the Enter of an activation.
pub(crate) fn on_enter<B: Board>(
    alloc: Global,
    board: &mut B,
    h: &mut Progress,
    m: &Moment<'_, '_>,
) -> Result<(), AllocError>
    requires kept { IsKeptAt m.now.plan m.now.program (start_of h.old.start.known) (length h.old.history.events) h.old.history.events (acts_of h.old.stops.items) (B.standing board.old) h.old.opens.items h.old.kept }
    requires next { IsNext h.old.history.events m.now.told.event }
    requires node { m.now.told.event.node < (B.standing board.old).nodes }
    requires few { m.now.told.event.number < 2 ^ 25 }
    requires shares { (x : ℕ) → x < (B.standing board.old).sessions → 2 ^ 26 ≤ (B.standing board.old).answer_share x + (length h.old.history.events) }
    requires enter { is_enter m.now.told.event.kind ≡ true }
    requires stands { IsStanding m.now }
    ensures kept { OnOk result (IsKeptAt m.now.plan m.now.program (start_of h.old.start.known) ((length h.old.history.events) + 1) (h.old.history.events ++ m.now.told ∷ []) (acts_of h.old.stops.items) (B.standing board.new) h.new.opens.items h.new.kept) }
    ensures more { OnOk result (IsMore m.now.plan m.now.told.event.number (B.standing board.old) (B.standing board.new)) }
    ensures context { OnOk result (h.new.kept.context ≡ h.old.kept.context) }
    ensures rest { h.new ≡ record h.old { opens = h.new.opens; kept = h.new.kept } }
    ensures steady { steady_of (B.standing board.new) ≡ steady_of (B.standing board.old) }
    ensures base { B.base board.new ≡ B.base board.old }
{
    let event = m.event;
    let chain = load(alloc, board, 2 * h.kept.logs.len() as u32, event.node)?;
    let mut on = Items::of(Vec::new(alloc));
    offer_all(alloc, board, &mut h.kept, m, &chain, &mut on)?;
    open(&mut h.opens, event.number, on)?;
    Ok(())
}

/// One more activation is open.
fn open(opens: &mut Vec<Opened>, event: u32, on: Items<u32>) -> Result<(), AllocError>
    ensures { OnOk result (opens.new.items ≡ opens.old.items ++ record { event = event; on = on } ∷ []) }
{
    opens.push(Opened { event, on })?;
    Ok(())
}

/// Serves the end of an activation, which is the innermost open one.
pub(crate) fn on_end<B: Board>(
    alloc: Global,
    board: &mut B,
    h: &mut Progress,
    m: &Moment<'_, '_>,
) -> Result<(), AllocError>
    requires kept { IsKeptAt m.now.plan m.now.program (start_of h.old.start.known) (length h.old.history.events) h.old.history.events (acts_of h.old.stops.items) (B.standing board.old) h.old.opens.items h.old.kept }
    requires next { IsNext h.old.history.events m.now.told.event }
    requires node { m.now.told.event.node < (B.standing board.old).nodes }
    requires few { m.now.told.event.number < 2 ^ 25 }
    requires shares { (x : ℕ) → x < (B.standing board.old).sessions → 2 ^ 26 ≤ (B.standing board.old).answer_share x + (length h.old.history.events) }
    requires end { is_enter m.now.told.event.kind ≡ false }
    ensures kept { OnOk result (IsKeptAt m.now.plan m.now.program (start_of h.old.start.known) ((length h.old.history.events) + 1) (h.old.history.events ++ m.now.told ∷ []) (acts_of h.old.stops.items) (B.standing board.new) h.new.opens.items h.new.kept) }
    ensures more { OnOk result (IsMore m.now.plan m.now.told.event.number (B.standing board.old) (B.standing board.new)) }
    ensures context { OnOk result (h.new.kept.context ≡ h.old.kept.context) }
    ensures rest { h.new ≡ record h.old { opens = h.new.opens; kept = h.new.kept } }
    ensures steady { steady_of (B.standing board.new) ≡ steady_of (B.standing board.old) }
    ensures base { B.base board.new ≡ B.base board.old }
{
    let Some(opened) = h.opens.pop() else {
        unreachable!();
    };
    make_room(alloc, board, 2 * h.kept.logs.len() as u32)?;
    finish_all(board, &mut h.kept, m, opened.on.as_slice())?;
    Ok(())
}

/// Serves the next event: its bindings are drawn.
pub(crate) fn serve<B: Board>(
    alloc: Global,
    board: &mut B,
    h: &mut Progress,
    m: &Moment<'_, '_>,
) -> Result<(), AllocError>
    requires kept { IsKeptAt m.now.plan m.now.program (start_of h.old.start.known) (length h.old.history.events) h.old.history.events (acts_of h.old.stops.items) (B.standing board.old) h.old.opens.items h.old.kept }
    requires next { IsNext h.old.history.events m.now.told.event }
    requires node { m.now.told.event.node < (B.standing board.old).nodes }
    requires few { m.now.told.event.number < 2 ^ 25 }
    requires shares { (x : ℕ) → x < (B.standing board.old).sessions → 2 ^ 26 ≤ (B.standing board.old).answer_share x + (length h.old.history.events) }
    requires stands { IsStanding m.now }
    ensures kept { OnOk result (IsKeptAt m.now.plan m.now.program (start_of h.old.start.known) ((length h.old.history.events) + 1) (h.old.history.events ++ m.now.told ∷ []) (acts_of h.old.stops.items) (B.standing board.new) h.new.opens.items h.new.kept) }
    ensures more { OnOk result (IsMore m.now.plan m.now.told.event.number (B.standing board.old) (B.standing board.new)) }
    ensures context { OnOk result (h.new.kept.context ≡ h.old.kept.context) }
    ensures rest { h.new ≡ record h.old { opens = h.new.opens; kept = h.new.kept } }
    ensures steady { steady_of (B.standing board.new) ≡ steady_of (B.standing board.old) }
    ensures base { B.base board.new ≡ B.base board.old }
{
    match m.event.kind {
        EventKind::Enter => on_enter(alloc, board, h, m),
        EventKind::Return(_) | EventKind::Leave(_) => on_end(alloc, board, h, m),
    }
}
