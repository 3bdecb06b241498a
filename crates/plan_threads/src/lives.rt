//! The life of each binding over all contexts and sessions.
use crate::contexts::ONE_SHOT;
use crate::fault::Fault;
use crate::numbers::{Taken, are_below, taken_in_all};
use pd_board::{ActResult, Attach, BindingTally, Dispose, State, Toggle};
use pd_run::Report;
use pd_session::{ActionResult, SessionRecord};
use std::alloc::{AllocError, Global};

/// What the acts on a binding were answered, over all sessions.
#[derive(Drop)]
struct Answers {
    attaches: Vec<Attach>,
    disposes: Vec<Dispose>,
    disables: Vec<Toggle>,
    enables: Vec<Toggle>,
}

impl Answers {
    fn none(alloc: Global) -> Answers {
        Answers {
            attaches: Vec::new(alloc),
            disposes: Vec::new(alloc),
            disables: Vec::new(alloc),
            enables: Vec::new(alloc),
        }
    }

    /// Adds an answer, if it is one of the binding.
    fn add(&mut self, binding: usize, answer: ActResult) -> Result<(), AllocError> {
        match answer {
            ActResult::Attached(b, a) if b as usize == binding => self.attaches.push(a)?,
            ActResult::Disposed(b, d) if b as usize == binding => self.disposes.push(d)?,
            ActResult::Enabled(b, t) if b as usize == binding => self.enables.push(t)?,
            ActResult::Disabled(b, t) if b as usize == binding => self.disables.push(t)?,
            _ => {}
        }
        Ok(())
    }

    /// The answers to all acts on the binding.
    fn of(
        alloc: Global,
        binding: usize,
        sessions: &[SessionRecord],
    ) -> Result<Answers, AllocError> {
        let mut answers = Answers::none(alloc);
        for session in sessions {
            for answer in session.before.as_slice() {
                answers.add(binding, *answer)?;
            }
            for result in session.actions.as_slice() {
                if let ActionResult::Act(answer) = *result {
                    answers.add(binding, answer)?;
                }
            }
        }
        Ok(answers)
    }

    fn is_attached(&self) -> bool {
        self.attaches.iter().any(|a| *a == Attach::Attached)
    }

    /// Of the attaches, where there are some, just one came first, and it attached the binding where numbers were taken.
    fn attach_once(&self, count: u64) -> bool {
        let firsts = self.attaches.iter().filter(|a| **a != Attach::Already);
        firsts.count() == self.attaches.len().min(1) && (count == 0 || self.is_attached())
    }

    /// Of the disposals, where there are some, just one disposed the binding, and found so many numbers taken.
    fn dispose_once(&self, count: u64) -> bool {
        let firsts = self.disposes.iter().filter(|d| **d != Dispose::Already);
        firsts.count() == self.disposes.len().min(1)
            && self.disposes.iter().all(|d| *d == Dispose::Already
                || *d == Dispose::Disposed { count })
    }

    /// Whether something was answered that only a binding that is disposed answers.
    fn tell_of_disposal(&self) -> bool {
        !self.disposes.is_empty()
            || self.attaches.iter().any(|a| *a == Attach::Gone)
            || self.disables.iter().any(|t| *t == Toggle::Gone)
            || self.enables.iter().any(|t| *t == Toggle::Gone)
    }
}

/// The state that the acts, and a one-shot breakpoint that took its first place, leave.
fn state_of(binding: usize, answers: &Answers, count: u64) -> State {
    let is_shot = binding == ONE_SHOT as usize && count > 0;
    if is_shot || !answers.disposes.is_empty() {
        State::Disposed
    } else if answers.is_attached() {
        State::Live
    } else {
        State::Unattached
    }
}

/// The binding's attaches, disposals and state go together.
fn is_lawful(binding: usize, answers: &Answers, tally: BindingTally) -> bool {
    answers.attach_once(tally.count)
        && answers.dispose_once(tally.count)
        && tally.state == state_of(binding, answers, tally.count)
        && (tally.state == State::Disposed || !answers.tell_of_disposal())
}

/// How many of the toggles switched the binding where at most so many numbers had been taken.
fn upto(toggles: &[Toggle], most: u64) -> usize {
    toggles
        .iter()
        .filter(|t| matches!(**t, Toggle::At { count } if count <= most))
        .count()
}

/// By how much the binding was switched off oftener than on, up to so many numbers: 0 or 1; else `None`.
fn is_off(answers: &Answers, most: u64) -> Option<bool> {
    let off = upto(answers.disables.as_slice(), most);
    let on = upto(answers.enables.as_slice(), most);
    if off < on {
        return None;
    }
    match off - on {
        0 => Some(false),
        1 => Some(true),
        _ => None,
    }
}

/// The toggles alternate, none counts past the end, and each number is a place just where the binding was on.
fn toggles_agree(answers: &Answers, taken: &[Taken], count: u64) -> bool {
    let within = |toggles: &[Toggle]| upto(toggles, count) == upto(toggles, u64::MAX);
    within(answers.disables.as_slice())
        && within(answers.enables.as_slice())
        && is_off(answers, count).is_some()
        && taken
            .iter()
            .all(|t| is_off(answers, t.number) == Some(!t.on))
}

/// Whether the life of each binding is lawful.
pub fn lives_agree(alloc: Global, report: &Report) -> Result<(), Fault> {
    for (binding, tally) in report.tally.bindings().iter().enumerate() {
        let taken = taken_in_all(alloc, binding, report)?;
        if !are_below(alloc, taken.as_slice(), tally.count)? {
            return Err(Fault::Numbers { binding });
        }
        let answers = Answers::of(alloc, binding, report.sessions.as_slice())?;
        if !is_lawful(binding, &answers, *tally) {
            return Err(Fault::Life { binding });
        }
        if !toggles_agree(&answers, taken.as_slice(), tally.count) {
            return Err(Fault::Toggles { binding });
        }
    }
    Ok(())
}
