//! The walk of references over a plan that was read.
ghost use Rattle.std.specs.Prelude.{◌≡◌, ⊤, codes};
ghost use Rattle.pd_plan_json.specs.Reading.{Read, Gives};
ghost use Rattle.pd_plan_json.specs.References as refer;

use crate::reader::{in_entry, in_member, refusal};
use pd_plan::{
    Act, Action, Answer, BindingSpec, BreakSpec, ContextSpec, ExportSpec, Filter, Plan,
    PlanRefusal, PlanRule, Script,
};
use pd_values::{Items, Stop};
use std::alloc::Global;

/// A rule on a value of one kind.
pub(crate) trait Rule {
    type Of: Drop;

    ghost holds: { Self → Self.Of → Read ⊤ };

    fn check(&self, alloc: Global, x: &Self::Of) -> Result<(), Stop<PlanRefusal>>
        ensures { Gives result (holds self.now x.now) };
}

/// The rule on a member.
pub(crate) fn check_within<R: Rule>(
    alloc: Global,
    name: &str,
    x: &R::Of,
    rule: &R,
) -> Result<(), Stop<PlanRefusal>>
    ensures { Gives result (refer.within name.now (R.holds rule.now) x.now) }
{
    match rule.check(alloc, x) {
        Ok(()) => Ok(()),
        Err(stop) => Err(in_member(alloc, name, stop)),
    }
}

fn check_each<R: Rule>(alloc: Global, xs: &[R::Of], rule: &R) -> Result<(), Stop<PlanRefusal>>
    ensures { Gives result (refer.each_from (R.holds rule.now) 0 xs.now) }
{
    for (i, x) in xs.iter().enumerate() {
        if let Err(stop) = rule.check(alloc, x) {
            return Err(in_entry(alloc, i, stop));
        }
    }
    Ok(())
}

/// The rule on each entry of a list.
#[derive(Drop)]
pub(crate) struct Each<R> {
    pub(crate) entry: R,
}

impl<R: Rule> Rule for Each<R> {
    type Of = Items<R::Of>;

    ghost holds = { λ r. refer.each (R.holds r.entry) };

    #[tactic(auto, unfolding(crate::specs::References::each))]
    fn check(&self, alloc: Global, xs: &Items<R::Of>) -> Result<(), Stop<PlanRefusal>> {
        check_each(alloc, xs.as_slice(), &self.entry)
    }
}

/// A number below a count.
#[derive(Drop)]
struct Below {
    count: usize,
}

impl Rule for Below {
    type Of = u32;

    ghost holds = { λ r. refer.had r.count };

    fn check(&self, alloc: Global, n: &u32) -> Result<(), Stop<PlanRefusal>> {
        if (*n as usize) < self.count {
            Ok(())
        } else {
            Err(refusal(alloc, PlanRule::NoSuch))
        }
    }
}

#[derive(Drop)]
struct ExportRule<'p> {
    plan: &'p Plan,
}

impl<'p> Rule for ExportRule<'p> {
    type Of = ExportSpec;

    ghost holds = { λ r. refer.export_refers r.plan.now };

    #[tactic(auto, unfolding(crate::specs::References::export_refers))]
    fn check(&self, alloc: Global, x: &ExportSpec) -> Result<(), Stop<PlanRefusal>> {
        let sources = Below {
            count: self.plan.sources.as_slice().len(),
        };
        check_within(alloc, "source", &x.source, &sources)
    }
}

#[derive(Drop)]
struct ContextRule<'p> {
    plan: &'p Plan,
}

impl<'p> Rule for ContextRule<'p> {
    type Of = ContextSpec;

    ghost holds = { λ r. refer.context_refers r.plan.now };

    #[tactic(auto, unfolding(crate::specs::References::context_refers))]
    fn check(&self, alloc: Global, x: &ContextSpec) -> Result<(), Stop<PlanRefusal>> {
        let sources = Below {
            count: self.plan.sources.as_slice().len(),
        };
        check_within(alloc, "source", &x.source, &sources)
    }
}

#[derive(Drop)]
struct FilterRule<'p> {
    plan: &'p Plan,
}

impl<'p> Rule for FilterRule<'p> {
    type Of = Filter;

    ghost holds = { λ r. refer.filter_refers r.plan.now };

    #[tactic(auto, unfolding(crate::specs::References::filter_refers))]
    fn check(&self, alloc: Global, x: &Filter) -> Result<(), Stop<PlanRefusal>> {
        let entry = Below {
            count: self.plan.sources.as_slice().len(),
        };
        check_within(alloc, "sources", &x.sources, &Each { entry })
    }
}

#[derive(Drop)]
struct BreakRule<'p> {
    plan: &'p Plan,
}

impl<'p> Rule for BreakRule<'p> {
    type Of = BreakSpec;

    ghost holds = { λ r. refer.break_refers r.plan.now };

    #[tactic(auto, unfolding(crate::specs::References::break_refers))]
    fn check(&self, alloc: Global, x: &BreakSpec) -> Result<(), Stop<PlanRefusal>> {
        let sessions = Below {
            count: self.plan.sessions.as_slice().len(),
        };
        let sources = Below {
            count: self.plan.sources.as_slice().len(),
        };
        check_within(alloc, "session", &x.session, &sessions)?;
        check_within(alloc, "source", &x.source, &sources)
    }
}

#[derive(Drop)]
struct BindingRule<'p> {
    plan: &'p Plan,
}

impl<'p> Rule for BindingRule<'p> {
    type Of = BindingSpec;

    ghost holds = { λ r. refer.binding_refers r.plan.now };

    #[tactic(auto, unfolding(crate::specs::References::binding_refers))]
    fn check(&self, alloc: Global, x: &BindingSpec) -> Result<(), Stop<PlanRefusal>> {
        let plan = self.plan;
        match x {
            BindingSpec::Observe(filter) => {
                check_within(alloc, "filter", filter, &FilterRule { plan })
            }
            BindingSpec::Break(spec) => BreakRule { plan }.check(alloc, spec),
            BindingSpec::Pause { session } => {
                let sessions = Below {
                    count: plan.sessions.as_slice().len(),
                };
                check_within(alloc, "session", session, &sessions)
            }
        }
    }
}

/// The number of an observer.
#[derive(Drop)]
struct ObserverNumber<'p> {
    plan: &'p Plan,
}

impl<'p> Rule for ObserverNumber<'p> {
    type Of = u32;

    ghost holds = { λ r. refer.observed r.plan.now };

    #[tactic(auto, unfolding(crate::specs::References::observed))]
    fn check(&self, alloc: Global, n: &u32) -> Result<(), Stop<PlanRefusal>> {
        match self.plan.bindings.as_slice().get(*n as usize) {
            None => Err(refusal(alloc, PlanRule::NoSuch)),
            Some(BindingSpec::Observe(_)) => Ok(()),
            Some(_) => Err(refusal(alloc, PlanRule::NotAnObserver)),
        }
    }
}

#[derive(Drop)]
struct ActRule<'p> {
    plan: &'p Plan,
}

impl<'p> Rule for ActRule<'p> {
    type Of = Act;

    ghost holds = { λ r. refer.act_refers r.plan.now };

    #[tactic(auto, unfolding(crate::specs::References::act_refers))]
    fn check(&self, alloc: Global, x: &Act) -> Result<(), Stop<PlanRefusal>> {
        let plan = self.plan;
        let bindings = Below {
            count: self.plan.bindings.as_slice().len(),
        };
        match x {
            Act::Attach(b) => check_within(alloc, "attach", b, &bindings),
            Act::Dispose(b) => check_within(alloc, "dispose", b, &bindings),
            Act::Enable(b) => check_within(alloc, "enable", b, &ObserverNumber { plan }),
            Act::Disable(b) => check_within(alloc, "disable", b, &ObserverNumber { plan }),
        }
    }
}

#[derive(Drop)]
struct ActionRule<'p> {
    plan: &'p Plan,
}

impl<'p> Rule for ActionRule<'p> {
    type Of = Action;

    ghost holds = { λ r. refer.action_refers r.plan.now };

    #[tactic(auto, unfolding(crate::specs::References::action_refers))]
    fn check(&self, alloc: Global, x: &Action) -> Result<(), Stop<PlanRefusal>> {
        let plan = self.plan;
        match x {
            Action::Act(act) => ActRule { plan }.check(alloc, act),
            Action::Await { .. } => Ok(()),
        }
    }
}

#[derive(Drop)]
struct AnswerRule<'p> {
    plan: &'p Plan,
}

impl<'p> Rule for AnswerRule<'p> {
    type Of = Answer;

    ghost holds = { λ r. refer.answer_refers r.plan.now };

    #[tactic(auto, unfolding(crate::specs::References::answer_refers))]
    fn check(&self, alloc: Global, x: &Answer) -> Result<(), Stop<PlanRefusal>> {
        let entry = ActRule { plan: self.plan };
        check_within(alloc, "first", &x.first, &Each { entry })
    }
}

#[derive(Drop)]
struct SessionRule<'p> {
    plan: &'p Plan,
}

impl<'p> Rule for SessionRule<'p> {
    type Of = Script;

    ghost holds = { λ r. refer.session_refers r.plan.now };

    #[tactic(auto, unfolding(crate::specs::References::session_refers))]
    fn check(&self, alloc: Global, x: &Script) -> Result<(), Stop<PlanRefusal>> {
        let plan = self.plan;
        let bindings = Below {
            count: plan.bindings.as_slice().len(),
        };
        check_within(alloc, "before", &x.before, &Each { entry: bindings })?;
        let actions = Each {
            entry: ActionRule { plan },
        };
        check_within(alloc, "actions", &x.actions, &actions)?;
        let answers = Each {
            entry: AnswerRule { plan },
        };
        check_within(alloc, "answers", &x.answers, &answers)
    }
}

/// Whether each number of a source, a binding or a session is one that the plan has; or else the first that isn't.
#[tactic(auto, unfolding(crate::specs::References::refers))]
pub(crate) fn check_references(alloc: Global, plan: &Plan) -> Result<(), Stop<PlanRefusal>>
    ensures { Gives result (refer.refers plan.now) }
{
    let exports = Each {
        entry: ExportRule { plan },
    };
    check_within(alloc, "exports", &plan.exports, &exports)?;
    let contexts = Each {
        entry: ContextRule { plan },
    };
    check_within(alloc, "contexts", &plan.contexts, &contexts)?;
    let bindings = Each {
        entry: BindingRule { plan },
    };
    check_within(alloc, "bindings", &plan.bindings, &bindings)?;
    let sessions = Each {
        entry: SessionRule { plan },
    };
    check_within(alloc, "sessions", &plan.sessions, &sessions)
}
