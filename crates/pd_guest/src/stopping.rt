//! The suspensions of an event, session by session, and what is answered.
ghost use Rattle.std.specs.Prelude.{◌≡◌, ℕ, ◌<◌, ◌+◌, ◌^◌, true, false, length, slice_set, IfOk, OnOk, [], ◌∷◌, ◌++◌};
ghost use Rattle.pd_plan.specs.declared.plan.Answer.{Answer as Given};
ghost use Rattle.pd_suspend.specs.declared.suspension.Suspension.{Suspension as Stop};
ghost use Rattle.pd_suspend.specs.Answers.{IsLawful};
ghost use Rattle.pd_suspend.specs.Stops.{verdicts_of, views_of, anchor_of};
ghost use Rattle.pd_meaning.specs.Meaning.{Verdicts};
ghost use Rattle.pd_eval.specs.Watching.{GivesNoFunction, keep};
ghost use Rattle.pd_order.specs.Order.{IsNext, IsPlaced};
ghost use Rattle.pd_guest.specs.Delivering.{settled_of};
ghost use Rattle.pd_guest.specs.Moment.{IsStanding};
ghost use Rattle.pd_guest.specs.Replying.{IsGiven};
ghost use Rattle.pd_guest.specs.Asking.{IsKept, IsAsking, IsGivenBy, IsAsked, IsPlaceOf, is_go, verdict_by, stepper_at};
ghost use Rattle.pd_plan.specs.declared.plan.Resume.TheVariants.{Continue as GoOn};
ghost use Rattle.pd_board.specs.Standing.{bindings};
ghost use Rattle.pd_suspend.specs.Counters.{moved_any};

use crate::acting::do_all;
use crate::moment::Moment;
use crate::reasons::{Place, anchor, place_of, reasons_of};
use crate::serving::{Progress, serve};
use crate::showing::frames_of;
use crate::verdict::{goes_on, verdict_of};
use pd_board::Board;
use pd_eval::Heard;
use pd_machine::Verdict;
use pd_plan::{Answer, Resume};
use pd_suspend::{Answerer, Reason, Suspension};
use pd_values::Items;
use std::alloc::{AllocError, Global};

/// Serves the next event: its bindings are drawn, and then the sessions that have a reason are suspended.
pub(crate) fn attend<B: Board, A: Answerer>(
    alloc: Global,
    board: &mut B,
    answerer: &mut A,
    h: &mut Progress,
    m: &Moment<'_, '_>,
) -> Result<Verdict, AllocError>
    requires kept { IsKept m.now.plan m.now.program (B.standing board.old) h.old }
    requires given { IsGiven (A.admits (A.base answerer.old)) (A.keeps (A.base answerer.old)) h.old.first.list (A.list answerer.old) h.old.stops.items }
    requires lawful { (x : Stop) (a : Given) → A.admits (A.base answerer.old) x a → IsLawful m.now.plan a }
    requires next { IsNext h.old.history.events m.now.told.event }
    requires placed { IsPlaced (B.standing board.old).nodes m.now.told.event m.now.told.scene }
    requires few { m.now.told.event.number < 2 ^ 25 }
    ensures kept { OnOk result (IsKept m.now.plan m.now.program (B.standing board.new) h.new) }
    ensures given { OnOk result (IsGiven (A.admits (A.base answerer.old)) (A.keeps (A.base answerer.old)) h.old.first.list (A.list answerer.new) h.new.stops.items) }
    ensures told { OnOk result (h.new.history.events ≡ h.old.history.events ++ m.now.told ∷ []) }
    ensures verdict { IfOk result (λ v. verdicts_of h.new.stops.items ≡ keep (verdicts_of h.old.stops.items) m.now.told.event.number v) }
    ensures value { IfOk result GivesNoFunction }
    ensures start { h.new.start ≡ h.old.start }
    ensures first { h.new.first ≡ h.old.first }
    ensures context { h.new.context ≡ h.old.context }
    ensures settled { settled_of (B.standing board.new) ≡ settled_of (B.standing board.old) }
    ensures base { B.base board.new ≡ B.base board.old }
    ensures answerer { A.base answerer.new ≡ A.base answerer.old }
{
    let first = h.kept.seen.len();
    serve(alloc, board, h, m)?;
    let verdict = stop_all(alloc, board, answerer, h, m, first)?;
    h.history = Heard::and(&h.history, m.event, m.scene);
    Ok(verdict)
}

/// Suspends each session that has a reason at an event, in order, until an answer changes the run; that is the verdict.
/// What was seen from number `first` on was seen at the event.
fn stop_all<B: Board, A: Answerer>(
    alloc: Global,
    board: &mut B,
    answerer: &mut A,
    h: &mut Progress,
    m: &Moment<'_, '_>,
    first: usize,
) -> Result<Verdict, AllocError>
    requires asking { IsAsking m.now first 0 true (B.standing board.old) h.old }
    requires stands { IsStanding m.now }
    requires given { IsGiven (A.admits (A.base answerer.old)) (A.keeps (A.base answerer.old)) h.old.first.list (A.list answerer.old) h.old.stops.items }
    requires lawful { (x : Stop) (a : Given) → A.admits (A.base answerer.old) x a → IsLawful m.now.plan a }
    ensures asking { IfOk result (λ v. IsAsking m.now first (length m.now.plan.sessions) (is_go v) (B.standing board.new) h.new) }
    ensures given { OnOk result (IsGiven (A.admits (A.base answerer.old)) (A.keeps (A.base answerer.old)) h.old.first.list (A.list answerer.new) h.new.stops.items) }
    ensures verdict { IfOk result (λ v. verdicts_of h.new.stops.items ≡ keep (verdicts_of h.old.stops.items) m.now.told.event.number v) }
    ensures value { IfOk result GivesNoFunction }
    ensures rest { h.new ≡ record h.old { stops = h.new.stops; steppers = h.new.steppers } }
    ensures settled { settled_of (B.standing board.new) ≡ settled_of (B.standing board.old) }
    ensures base { B.base board.new ≡ B.base board.old }
    ensures answerer { A.base answerer.new ≡ A.base answerer.old }
{
    let place = place_of(m);
    let mut verdict = Verdict::Go;
    'sessions: for session in 0..h.steppers.len() as u32 {
        verdict = turn(alloc, board, answerer, h, m, first, place, session, verdict)?;
    }
    Ok(verdict)
}

/// A session's turn at an event at which this is the verdict so far: it is suspended where it has a reason and the run
/// goes on as it is.
fn turn<B: Board, A: Answerer>(
    alloc: Global,
    board: &mut B,
    answerer: &mut A,
    h: &mut Progress,
    m: &Moment<'_, '_>,
    first: usize,
    place: Place,
    session: u32,
    verdict: Verdict,
) -> Result<Verdict, AllocError>
    requires asking { IsAsking m.now first session (is_go verdict) (B.standing board.old) h.old }
    requires session { session < length m.now.plan.sessions }
    requires place { IsPlaceOf m.now place }
    requires stands { IsStanding m.now }
    requires given { IsGiven (A.admits (A.base answerer.old)) (A.keeps (A.base answerer.old)) h.old.first.list (A.list answerer.old) h.old.stops.items }
    requires lawful { (x : Stop) (a : Given) → A.admits (A.base answerer.old) x a → IsLawful m.now.plan a }
    requires value { GivesNoFunction verdict }
    ensures asking { IfOk result (λ v. IsAsking m.now first (session + 1) (is_go v) (B.standing board.new) h.new) }
    ensures given { OnOk result (IsGiven (A.admits (A.base answerer.old)) (A.keeps (A.base answerer.old)) h.old.first.list (A.list answerer.new) h.new.stops.items) }
    ensures verdict { IfOk result (λ v. (kept : Verdicts) → verdicts_of h.old.stops.items ≡ keep kept m.now.told.event.number verdict → verdicts_of h.new.stops.items ≡ keep kept m.now.told.event.number v) }
    ensures value { IfOk result GivesNoFunction }
    ensures rest { h.new ≡ record h.old { stops = h.new.stops; steppers = h.new.steppers } }
    ensures settled { settled_of (B.standing board.new) ≡ settled_of (B.standing board.old) }
    ensures base { B.base board.new ≡ B.base board.old }
    ensures answerer { A.base answerer.new ≡ A.base answerer.old }
{
    if goes_on(&verdict) {
        let own = stop(alloc, board, answerer, h, m, first, place, session)?;
        return Ok(own);
    }
    pass_over(h, m, place, session);
    Ok(verdict)
}

/// A session that isn't asked: its step sees the event.
fn pass_over(h: &mut Progress, m: &Moment<'_, '_>, place: Place, session: u32)
    requires session { session < length h.old.steppers.items }
    ensures steppers { h.new.steppers.items ≡ slice_set h.old.steppers.items session (moved_any (stepper_at h.old session) place.before place.after m.now.told.event.depth) }
    ensures rest { h.new ≡ record h.old { steppers = h.new.steppers } }
{
    let _ = h.steppers[session as usize].see(place.before, place.after, m.event.depth);
}

/// Suspends a session, where it has a reason.
fn stop<B: Board, A: Answerer>(
    alloc: Global,
    board: &mut B,
    answerer: &mut A,
    h: &mut Progress,
    m: &Moment<'_, '_>,
    first: usize,
    place: Place,
    session: u32,
) -> Result<Verdict, AllocError>
    requires asking { IsAsking m.now first session true (B.standing board.old) h.old }
    requires session { session < length m.now.plan.sessions }
    requires place { IsPlaceOf m.now place }
    requires stands { IsStanding m.now }
    requires given { IsGiven (A.admits (A.base answerer.old)) (A.keeps (A.base answerer.old)) h.old.first.list (A.list answerer.old) h.old.stops.items }
    requires lawful { (x : Stop) (a : Given) → A.admits (A.base answerer.old) x a → IsLawful m.now.plan a }
    ensures asking { IfOk result (λ v. IsAsking m.now first (session + 1) (is_go v) (B.standing board.new) h.new) }
    ensures given { OnOk result (IsGiven (A.admits (A.base answerer.old)) (A.keeps (A.base answerer.old)) h.old.first.list (A.list answerer.new) h.new.stops.items) }
    ensures verdict { IfOk result (λ v. verdicts_of h.new.stops.items ≡ keep (verdicts_of h.old.stops.items) m.now.told.event.number v) }
    ensures value { IfOk result GivesNoFunction }
    ensures rest { h.new ≡ record h.old { stops = h.new.stops; steppers = h.new.steppers } }
    ensures settled { settled_of (B.standing board.new) ≡ settled_of (B.standing board.old) }
    ensures base { B.base board.new ≡ B.base board.old }
    ensures answerer { A.base answerer.new ≡ A.base answerer.old }
{
    let sights = &h.kept.seen[first..];
    let reasons = reasons_of(
        alloc,
        m,
        sights,
        session,
        &mut h.steppers[session as usize],
        place,
    )?;
    if reasons.is_empty() {
        return Ok(Verdict::Go);
    }
    let verdict = ask(alloc, board, answerer, h, m, session, reasons)?;
    Ok(verdict)
}

/// Suspends a session for these reasons: it is asked, and what is answered is done.
fn ask<B: Board, A: Answerer>(
    alloc: Global,
    board: &mut B,
    answerer: &mut A,
    h: &mut Progress,
    m: &Moment<'_, '_>,
    session: u32,
    reasons: Items<Reason>,
) -> Result<Verdict, AllocError>
    requires session { session < (B.standing board.old).sessions }
    requires steppers { session < length h.old.steppers.items }
    requires open { (B.standing board.old).ended ≡ false }
    requires draws { 1 < (B.standing board.old).draw_share }
    requires answers { (x : ℕ) → x < (B.standing board.old).sessions → 2 < (B.standing board.old).answer_share x }
    requires bindings { bindings (B.standing board.old) ≡ length m.now.plan.bindings }
    requires few { length h.old.stops.items < 2 ^ 32 }
    requires lawful { (x : Stop) (a : Given) → A.admits (A.base answerer.old) x a → IsLawful m.now.plan a }
    ensures asked { IfOk result (λ v. (x : Stop) × IsAsked m.now session reasons (B.standing board.old) (B.standing board.new) h.old h.new x × (v ≡ verdict_by x.resume) × IsGivenBy (A.admits (A.base answerer.old)) (A.keeps (A.base answerer.old)) (A.list answerer.old) (A.list answerer.new) x) }
    ensures value { IfOk result GivesNoFunction }
    ensures rest { h.new ≡ record h.old { stops = h.new.stops; steppers = h.new.steppers } }
    ensures settled { settled_of (B.standing board.new) ≡ settled_of (B.standing board.old) }
    ensures base { B.base board.new ≡ B.base board.old }
    ensures answerer { A.base answerer.new ≡ A.base answerer.old }
{
    board.reserve(alloc, 1)?;
    let answer = board.take_answer(session);
    let mut stop = suspension(alloc, h, m, session, answer, reasons)?;
    let Answer { first, resume } = answerer.answer(alloc, &stop)?;
    stop.acts = do_all(alloc, board, first.as_slice())?;
    let verdict = verdict_of(&resume)?;
    h.steppers[session as usize].arm(&resume, m.scene.frames());
    stop.resume = resume;
    h.stops.push(stop)?;
    Ok(verdict)
}

/// A suspension of a session as it is handed to who answers.
fn suspension(
    alloc: Global,
    h: &Progress,
    m: &Moment<'_, '_>,
    session: u32,
    answer: u32,
    reasons: Items<Reason>,
) -> Result<Suspension, AllocError>
    requires few { length h.now.stops.items < 2 ^ 32 }
    ensures { IfOk result (λ x. x ≡ record { context = h.now.context; session = session; number = length h.now.stops.items; event = m.now.told.event.number; anchor = anchor_of m.now.told.event.kind; node = m.now.told.event.node; reasons = reasons; frames = views_of m.now.program m.now.told.scene; answer = answer; acts = []; resume = GoOn }) }
{
    Ok(Suspension {
        context: h.context,
        session,
        number: h.stops.len() as u32,
        event: m.event.number,
        anchor: anchor(m.event),
        node: m.event.node,
        reasons,
        frames: frames_of(alloc, m)?,
        answer,
        acts: Items::of(Vec::new(alloc)),
        resume: Resume::Continue,
    })
}
