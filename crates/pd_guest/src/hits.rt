//! The hits of an event: the breakpoints and pauses that suspend a session there.
ghost use Rattle.std.specs.Prelude.{◌≡◌, ◌&&◌, ◌++◌, IfOk, OnOk};
ghost use Rattle.std.specs.List.{filter_map};
ghost use Rattle.std.specs.Option.{option_to_list};
ghost use Rattle.pd_break.specs.Hits.{is_of_session, suspends_at};
ghost use Rattle.pd_condition.specs.Truths.{is_cannot as is_not_told};
ghost use Rattle.pd_guest.specs.Moment.{IsStanding};
ghost use Rattle.pd_guest.specs.Hitting.{hit_in, is_suspend};

use crate::moment::{Moment, truth};
use pd_board::{Drawn, Sight};
use pd_break::{Decision, decide};
use pd_condition::Truth;
use pd_plan::BindingSpec;
use pd_suspend::Reason;
use pd_values::Items;
use std::alloc::{AllocError, Global};

/// The hits that suspend a session among what was seen at an event, in order.
pub(crate) fn hits_of(
    alloc: Global,
    m: &Moment<'_, '_>,
    sights: &[Sight],
    session: u32,
) -> Result<Items<Reason>, AllocError>
    requires { IsStanding m.now }
    ensures { IfOk result (λ r. r ≡ filter_map (hit_in m.now session) sights.now) }
{
    let mut hits = Items::of(Vec::new(alloc));
    'sights: for sight in sights {
        let found = hit(alloc, m, sight, session)?;
        keep(&mut hits, found)?;
    }
    Ok(hits)
}

/// Keeps a hit, if there is one.
fn keep(hits: &mut Items<Reason>, found: Option<Reason>) -> Result<(), AllocError>
    ensures { OnOk result (hits.new ≡ hits.old ++ option_to_list found) }
{
    if let Some(reason) = found {
        hits.push(reason)?;
    }
    Ok(())
}

/// The hit that suspends a session, if what was seen is one: a place at which a binding of the session suspends it.
fn hit(
    alloc: Global,
    m: &Moment<'_, '_>,
    sight: &Sight,
    session: u32,
) -> Result<Option<Reason>, AllocError>
    requires { IsStanding m.now }
    ensures { IfOk result (λ r. r ≡ hit_in m.now session sight.now) }
{
    let Drawn::On { place } = sight.drawn else {
        return Ok(None);
    };
    let Some(spec) = m.plan.bindings.get(sight.binding as usize) else {
        return Ok(None);
    };
    if !suspends(spec, session, place) {
        return Ok(None);
    }
    let cannot = is_cannot(truth(alloc, m, spec)?);
    Ok(Some(Reason::Hit {
        binding: sight.binding,
        place,
        cannot,
    }))
}

/// Whether a binding's hit at this place suspends the session.
fn suspends(spec: &BindingSpec, session: u32, place: u64) -> bool
    ensures { result ≡ (is_of_session session spec.now && suspends_at spec.now place) }
{
    match spec {
        BindingSpec::Observe(_) => false,
        BindingSpec::Break(b) => b.session == session
            && is_suspension(decide(place, b.ignore, b.one_shot)),
        BindingSpec::Pause { session: paused } => *paused == session
            && is_suspension(decide(place, 0, true)),
    }
}

/// Whether a hit suspends its session.
fn is_suspension(decision: Decision) -> bool
    ensures { result ≡ is_suspend decision }
{
    match decision {
        Decision::Suspend => true,
        Decision::Count => false,
    }
}

/// Whether a condition has no truth value.
fn is_cannot(truth: Truth) -> bool
    ensures { result ≡ is_not_told truth }
{
    match truth {
        Truth::Cannot => true,
        Truth::True | Truth::False => false,
    }
}
