//! The tables of sessions.
ghost use Rattle.std.specs.Prelude.{◌≡◌};
ghost use Rattle.serde_json.specs.View.{view, items_view};
ghost use Rattle.pd_plan_json.specs.Reading.{Gives};
ghost use Rattle.pd_plan_json.specs.Tables as table;

use crate::members::{Table, choice_of, list_of, optional_of, required_of};
use crate::program::NAME;
use crate::reader::{Reader, refusal};
use crate::shapes::{ListIn, NumberIn, Reference, entry_of, items_of, signed_of};
use pd_plan::{Act, Action, Answer, PlanRefusal, PlanRule, Resume, Script};
use pd_values::{Stop, Value as Given};
use serde_json::Value;
use std::alloc::Global;

// The range of a number of answers, turns or steps.
const MILLION: NumberIn = NumberIn {
    low: 1,
    high: 1_000_000,
};

// The range of the number of a frame, counted from the innermost.
const FRAMES: NumberIn = NumberIn { low: 0, high: 2000 };

// The bindings that a session attaches before the run; a plan has at most 4,096 bindings.
const BEFORE: ListIn<Reference> = ListIn {
    low: 0,
    high: 4096,
    entry: Reference,
};

/// Reads what is done to a binding.
#[derive(Drop)]
struct FirstAct;

impl Reader for FirstAct {
    type Output = Act;

    ghost reads = { λ _. table.first_act };

    #[tactic(auto, unfolding(crate::specs::Tables::first_act))]
    fn read(&self, alloc: Global, value: &Value) -> Result<Act, Stop<PlanRefusal>> {
        if let Some(b) = optional_of(alloc, value, "attach", &Reference)? {
            return Ok(Act::Attach(b));
        }
        if let Some(b) = optional_of(alloc, value, "dispose", &Reference)? {
            return Ok(Act::Dispose(b));
        }
        if let Some(b) = optional_of(alloc, value, "enable", &Reference)? {
            return Ok(Act::Enable(b));
        }
        if let Some(b) = optional_of(alloc, value, "disable", &Reference)? {
            return Ok(Act::Disable(b));
        }
        Err(refusal(alloc, PlanRule::WrongShape))
    }
}

/// Reads an act of a plan of the version: an object with just one member.
#[derive(Clone, Copy, Drop)]
struct ActTable {
    version: u32,
}

impl Reader for ActTable {
    type Output = Act;

    ghost reads = { λ r. table.act r.version };

    #[tactic(auto, unfolding(crate::specs::Tables::act))]
    fn read(&self, alloc: Global, value: &Value) -> Result<Act, Stop<PlanRefusal>> {
        if self.version == 1 {
            return choice_of(alloc, value, &["attach", "dispose"], &FirstAct);
        }
        let names = &["attach", "dispose", "enable", "disable"];
        choice_of(alloc, value, names, &FirstAct)
    }
}

/// Reads a wait for answers.
#[derive(Drop)]
struct WaitMembers;

impl Reader for WaitMembers {
    type Output = Action;

    ghost reads = { λ _. table.wait_members };

    #[tactic(auto, unfolding(crate::specs::Tables::wait_members))]
    fn read(&self, alloc: Global, value: &Value) -> Result<Action, Stop<PlanRefusal>> {
        let count = required_of(alloc, value, "count", &MILLION)?;
        let turns = required_of(alloc, value, "turns", &MILLION)?;
        Ok(Action::Await { count, turns })
    }
}

const WAIT: Table<WaitMembers> = Table {
    names: &["count", "turns"],
    members: WaitMembers,
};

/// Reads what a session does.
#[derive(Drop)]
struct FirstAction;

impl Reader for FirstAction {
    type Output = Action;

    ghost reads = { λ _. table.first_action };

    #[tactic(auto, unfolding(crate::specs::Tables::first_action))]
    fn read(&self, alloc: Global, value: &Value) -> Result<Action, Stop<PlanRefusal>> {
        if let Some(wait) = optional_of(alloc, value, "await", &WAIT)? {
            return Ok(wait);
        }
        Ok(Action::Act(FirstAct.read(alloc, value)?))
    }
}

/// Reads an action of a plan of the version.
#[derive(Clone, Copy, Drop)]
struct ActionTable {
    version: u32,
}

impl Reader for ActionTable {
    type Output = Action;

    ghost reads = { λ r. table.action r.version };

    #[tactic(auto, unfolding(crate::specs::Tables::action))]
    fn read(&self, alloc: Global, value: &Value) -> Result<Action, Stop<PlanRefusal>> {
        if self.version == 1 {
            let names = &["attach", "dispose", "await"];
            return choice_of(alloc, value, names, &FirstAction);
        }
        let names = &["attach", "dispose", "await", "enable", "disable"];
        choice_of(alloc, value, names, &FirstAction)
    }
}

/// Reads the value that a call is told to give.
#[derive(Drop)]
struct GivenValue;

impl Reader for GivenValue {
    type Output = Given;

    ghost reads = { λ _. table.given };

    #[tactic(auto, unfolding(crate::specs::Tables::given))]
    fn read(&self, alloc: Global, value: &Value) -> Result<Given, Stop<PlanRefusal>> {
        match value {
            Value::Null => Ok(Given::Null),
            Value::Bool(b) => Ok(Given::Bool(*b)),
            Value::Number(_) => Ok(Given::Number(signed_of(alloc, value)?)),
            Value::String(_) => Ok(Given::Text(NAME.read(alloc, value)?)),
            _ => Err(refusal(alloc, PlanRule::WrongShape)),
        }
    }
}

/// Just two entries: a frame, and the value that its call gives.
#[tactic(auto, using(crate::proofs::Lists::frame_of_others))]
fn frame_and_value_of(alloc: Global, values: &[Value]) -> Result<Resume, Stop<PlanRefusal>>
    ensures { Gives result (table.frame_and_value (items_view values.now)) }
{
    match values {
        [frame, given] => {
            let frame = entry_of(alloc, 0, frame, &FRAMES)?;
            let given = entry_of(alloc, 1, given, &GivenValue)?;
            Ok(Resume::Return(frame, given))
        }
        _ => Err(refusal(alloc, PlanRule::WrongShape)),
    }
}

/// Reads an early return.
#[derive(Drop)]
struct ReturnTable;

impl Reader for ReturnTable {
    type Output = Resume;

    ghost reads = { λ _. table.returning };

    #[tactic(auto, unfolding(crate::specs::Tables::returning))]
    fn read(&self, alloc: Global, value: &Value) -> Result<Resume, Stop<PlanRefusal>> {
        let values = items_of(alloc, value)?;
        frame_and_value_of(alloc, values)
    }
}

/// Reads how a context goes on.
#[derive(Drop)]
struct FirstStep;

impl Reader for FirstStep {
    type Output = Resume;

    ghost reads = { λ _. table.first_step };

    #[tactic(auto, unfolding(crate::specs::Tables::first_step))]
    fn read(&self, alloc: Global, value: &Value) -> Result<Resume, Stop<PlanRefusal>> {
        if let Some(n) = optional_of(alloc, value, "into", &MILLION)? {
            return Ok(Resume::Into(n));
        }
        if let Some(n) = optional_of(alloc, value, "over", &MILLION)? {
            return Ok(Resume::Over(n));
        }
        if let Some(n) = optional_of(alloc, value, "out", &MILLION)? {
            return Ok(Resume::Out(n));
        }
        if let Some(k) = optional_of(alloc, value, "reenter", &FRAMES)? {
            return Ok(Resume::Reenter(k));
        }
        if let Some(given) = optional_of(alloc, value, "return", &ReturnTable)? {
            return Ok(given);
        }
        Err(refusal(alloc, PlanRule::WrongShape))
    }
}

/// Reads how a context goes on, as an object of a plan of the version.
#[derive(Clone, Copy, Drop)]
struct SteppingTable {
    version: u32,
}

impl Reader for SteppingTable {
    type Output = Resume;

    ghost reads = { λ r. table.stepping r.version };

    #[tactic(auto, unfolding(crate::specs::Tables::stepping))]
    fn read(&self, alloc: Global, value: &Value) -> Result<Resume, Stop<PlanRefusal>> {
        if self.version == 1 {
            let names = &["into", "over", "out", "reenter"];
            return choice_of(alloc, value, names, &FirstStep);
        }
        let names = &["into", "over", "out", "reenter", "return"];
        choice_of(alloc, value, names, &FirstStep)
    }
}

/// Reads how a context goes on, in a plan of the version.
#[derive(Clone, Copy, Drop)]
struct ResumeTable {
    version: u32,
}

impl Reader for ResumeTable {
    type Output = Resume;

    ghost reads = { λ r. table.resume r.version };

    #[tactic(auto, unfolding(crate::specs::Tables::resume))]
    fn read(&self, alloc: Global, value: &Value) -> Result<Resume, Stop<PlanRefusal>> {
        match value.as_str() {
            Some("continue") => Ok(Resume::Continue),
            Some("kill") => Ok(Resume::Kill),
            Some(_) => Err(refusal(alloc, PlanRule::UnknownWord)),
            None => SteppingTable {
                version: self.version,
            }
            .read(alloc, value),
        }
    }
}

const ANSWER: &[&str] = &["first", "then"];

/// Reads an answer of a plan of the version.
#[derive(Clone, Copy, Drop)]
struct AnswerMembers {
    version: u32,
}

impl Reader for AnswerMembers {
    type Output = Answer;

    ghost reads = { λ r. table.answer_members r.version };

    #[tactic(auto, unfolding(crate::specs::Tables::answer_members))]
    fn read(&self, alloc: Global, value: &Value) -> Result<Answer, Stop<PlanRefusal>> {
        let version = self.version;
        let acts = ListIn {
            low: 0,
            high: 64,
            entry: ActTable { version },
        };
        let first = list_of(alloc, value, "first", &acts)?;
        let resumes = ResumeTable { version };
        let resume = required_of(alloc, value, "then", &resumes)?;
        Ok(Answer { first, resume })
    }
}

/// Reads a session of a plan of the version.
#[derive(Clone, Copy, Drop)]
pub(crate) struct SessionMembers {
    pub(crate) version: u32,
}

impl Reader for SessionMembers {
    type Output = Script;

    ghost reads = { λ r. table.session_members r.version };

    #[tactic(auto, unfolding(crate::specs::Tables::session_members))]
    fn read(&self, alloc: Global, value: &Value) -> Result<Script, Stop<PlanRefusal>> {
        let before = list_of(alloc, value, "before", &BEFORE)?;
        let version = self.version;
        let actions = ListIn {
            low: 0,
            high: 1000,
            entry: ActionTable { version },
        };
        let actions = list_of(alloc, value, "actions", &actions)?;
        let answers = ListIn {
            low: 0,
            high: 10_000,
            entry: Table {
                names: ANSWER,
                members: AnswerMembers { version },
            },
        };
        let answers = list_of(alloc, value, "answers", &answers)?;
        Ok(Script {
            before,
            actions,
            answers,
        })
    }
}
