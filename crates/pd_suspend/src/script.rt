//! Answers by the scripts of a plan.
ghost use Rattle.std.specs.Prelude.{◌≡◌, false, [], IfOk, map, slice_index_or};
ghost use Rattle.pd_plan.specs.declared.plan.Plan.{Plan as Planned};
ghost use Rattle.pd_suspend.specs.Answers.{scripted, goes_on as going_on};

use crate::answerer::Answerer;
use crate::suspension::Suspension;
use pd_plan::{Act, Answer, Plan, Resume};
use pd_values::Items;
use std::alloc::{AllocError, Global};

/// Answers each suspension as the plan's scripts say. It keeps none of them.
#[derive(Clone, Copy, Drop)]
pub struct ScriptAnswerer<'p> {
    plan: &'p Plan,
}

impl<'p> ScriptAnswerer<'p> {
    /// The answers of this plan's scripts. It takes no memory.
    pub fn new(plan: &'p Plan) -> ScriptAnswerer<'p>
        ensures { result.plan.now ≡ plan.now }
    {
        ScriptAnswerer { plan }
    }
}

impl Answerer for ScriptAnswerer<'_> {
    ghost Base = { Planned };

    ghost base = { λ s. s.plan.now };

    ghost admits = { λ plan x a. a ≡ scripted plan x.session x.answer };

    ghost keeps = { λ _ _. false };

    ghost list = { λ _. [] };

    fn answer(&mut self, alloc: Global, s: &Suspension) -> Result<Answer, AllocError> {
        scripted_answer(alloc, self.plan, s.session, s.answer)
    }
}

/// Answer `k` of a session's script, from 0; past the script, and for a session that the plan doesn't have, one without
/// acts after which the context goes on. The only error is `AllocError`, where memory runs out.
pub fn scripted_answer(
    alloc: Global,
    plan: &Plan,
    session: u32,
    k: u32,
) -> Result<Answer, AllocError>
    ensures { IfOk result (λ a. a ≡ scripted plan.now session k) }
{
    match answers_of(plan, session).get(k as usize) {
        Some(answer) => copy_answer(alloc, answer),
        None => Ok(goes_on(alloc)),
    }
}

/// The answers of a session's script; of a session that the plan doesn't have there are none.
fn answers_of(plan: &Plan, session: u32) -> &[Answer]
    ensures { result.now ≡ slice_index_or (map (λ s. s.answers) plan.now.sessions) session [] }
{
    match plan.sessions.get(session as usize) {
        Some(script) => script.answers.as_slice(),
        None => &[],
    }
}

/// An answer without acts after which the context goes on.
pub fn goes_on(alloc: Global) -> Answer
    ensures { result ≡ going_on }
{
    Answer {
        first: Items::of(Vec::new(alloc)),
        resume: Resume::Continue,
    }
}

/// A second answer with the same content. The only error is `AllocError`, where memory runs out.
pub fn copy_answer(alloc: Global, answer: &Answer) -> Result<Answer, AllocError>
    ensures { IfOk result (λ copy. copy ≡ answer.now) }
{
    Ok(Answer {
        first: copy_acts(alloc, answer.first.as_slice())?,
        resume: copy_resume(&answer.resume)?,
    })
}

fn copy_acts(alloc: Global, acts: &[Act]) -> Result<Items<Act>, AllocError>
    ensures { IfOk result (λ copy. copy ≡ acts.now) }
{
    Ok(Items::of(acts.to_vec(alloc)?))
}

/// A second way to go on with the same content. The only error is `AllocError`, where memory runs out.
pub fn copy_resume(resume: &Resume) -> Result<Resume, AllocError>
    ensures { IfOk result (λ copy. copy ≡ resume.now) }
{
    Ok(match resume {
        Resume::Continue => Resume::Continue,
        Resume::Into(n) => Resume::Into(*n),
        Resume::Over(n) => Resume::Over(*n),
        Resume::Out(n) => Resume::Out(*n),
        Resume::Reenter(k) => Resume::Reenter(*k),
        Resume::Return(k, value) => Resume::Return(*k, value.copy()?),
        Resume::Kill => Resume::Kill,
    })
}
