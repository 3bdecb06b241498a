//! The bindings that a load of a node held.
ghost use Rattle.std.specs.Prelude.{◌≡◌, ℕ, ◌<◌, ◌+◌, ◌^◌, true, false, length, OnOk, List, Some, ◌&&◌};
ghost use Rattle.pd_board.specs.declared.answers.Known.{Known as Knowledge};
ghost use Rattle.pd_board.specs.declared.answers.ActResult.{ActResult as Reply};
ghost use Rattle.pd_board.specs.Answers.{is_gone};
ghost use Rattle.pd_board.specs.Standing.{bindings};
ghost use Rattle.pd_board.specs.Chain.{has};
ghost use Rattle.pd_filter.specs.Matching.{table_of};
ghost use Rattle.pd_machine.specs.Events.{Told};
ghost use Rattle.pd_break.specs.Hits.{is_observer};
ghost use Rattle.pd_condition.specs.Truths.{is_false};
ghost use Rattle.pd_record.specs.Logs.{is_on};
ghost use Rattle.pd_suspend.specs.Steps.{is_enter};
ghost use Rattle.pd_guest.specs.Delivering.{steady_of};
ghost use Rattle.pd_guest.specs.Growing.{IsMore};
ghost use Rattle.pd_guest.specs.Moment.{IsStanding};
ghost use Rattle.pd_guest.specs.Offering.{IsOffered, IsAmple, IsSpent, IsOffering};

use crate::deliver::{Deliveries, deliver};
use crate::moment::{Moment, spec_of, truth};
use pd_board::{Board, Chain, Drawn, Known};
use pd_condition::Truth;
use pd_plan::BindingSpec;
use pd_values::Items;
use std::alloc::{AllocError, Global};

/// Serves a binding that the load of the event's node held. Where it is known as disposed it is swept; where its
/// condition is false it is passed; else it is drawn, and an observer to which the event was given joins `on`.
fn offer<B: Board>(
    alloc: Global,
    board: &mut B,
    kept: &mut Deliveries,
    m: &Moment<'_, '_>,
    b: u32,
    on: &mut Items<u32>,
) -> Result<(), AllocError>
    requires binding { b < bindings (B.standing board.old) }
    requires count { length kept.old.logs.items ≡ bindings (B.standing board.old) }
    requires open { (B.standing board.old).ended ≡ false }
    requires table { (B.standing board.old).table ≡ table_of m.now.plan m.now.program }
    requires node { m.now.told.event.node < (B.standing board.old).nodes }
    requires last_node { (B.standing board.old).last_node ≡ Some m.now.told.event.node }
    requires due { (B.standing board.old).due b ≡ true }
    requires held { (B.standing board.old).held b ≡ true }
    requires spare { 1 < (B.standing board.old).spare }
    requires share { 0 < (B.standing board.old).draw_share }
    requires room { (B.standing board.old).cleared + 1 < 2 ^ 60 }
    requires stands { IsStanding m.now }
    ensures met { OnOk result (IsOffered m.now b (B.standing board.old) (B.standing board.new) kept.old kept.new on.old on.new) }
    ensures steady { steady_of (B.standing board.new) ≡ steady_of (B.standing board.old) }
    ensures base { B.base board.new ≡ B.base board.old }
{
    if is_disposed(board.known(b)) {
        board.sweep(m.event.node, b);
        return Ok(());
    }
    let spec = spec_of(m.plan, b);
    let truth = truth(alloc, m, spec)?;
    if is_refusal(truth) {
        board.pass(m.event.number, b);
        return Ok(());
    }
    let drawn = deliver(board, kept, m.plan, m.event, b)?;
    if is_followed(spec, drawn) {
        on.push(b)?;
    }
    Ok(())
}

/// Whether a binding is known as disposed.
fn is_disposed(known: Known) -> bool
    ensures { result ≡ is_gone known }
{
    match known {
        Known::Disposed => true,
        Known::Fresh | Known::Attached => false,
    }
}

/// Whether a condition is false.
fn is_refusal(truth: Truth) -> bool
    ensures { result ≡ is_false truth }
{
    match truth {
        Truth::False => true,
        Truth::True | Truth::Cannot => false,
    }
}

/// Whether the binding is given the end of the activation too: it is an observer, and was given its Enter.
fn is_followed(spec: &BindingSpec, drawn: Drawn) -> bool
    ensures { result ≡ (is_observer spec.now && is_on drawn) }
{
    match (spec, drawn) {
        (BindingSpec::Observe(_), Drawn::On { .. }) => true,
        _ => false,
    }
}

/// Serves the bindings that the load of the event's node held, rising, and gathers the observers that the event was given to.
pub(crate) fn offer_all<B: Board>(
    alloc: Global,
    board: &mut B,
    kept: &mut Deliveries,
    m: &Moment<'_, '_>,
    chain: &Chain,
    on: &mut Items<u32>,
) -> Result<(), AllocError>
    requires ample { IsAmple m.now (has chain.now) (B.standing board.old) kept.old }
    requires stands { IsStanding m.now }
    ensures spent { OnOk result (IsSpent (has chain.now) m.now.told.event.number 4096 (B.standing board.old) (B.standing board.new) kept.old kept.new) }
    ensures offering { OnOk result ((start : ℕ → Knowledge) (ts : List Told) (done : List (ℕ × Reply)) → is_enter m.now.told.event.kind ≡ true
        → IsOffering m.now start ts done (has chain.now) 0 (B.standing board.old) kept.old on.old
        → IsOffering m.now start ts done (has chain.now) 4096 (B.standing board.new) kept.new on.new) }
    ensures more { OnOk result (IsMore m.now.plan m.now.told.event.number (B.standing board.old) (B.standing board.new)) }
    ensures steady { steady_of (B.standing board.new) ≡ steady_of (B.standing board.old) }
    ensures base { B.base board.new ≡ B.base board.old }
{
    let mut from = 0;
    'chain: while let Some(b) = chain.next_from(from) {
        offer(alloc, board, kept, m, b, on)?;
        from = b + 1;
    }
    Ok(())
}
