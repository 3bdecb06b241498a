//! Where a session is suspended and why, who answers, and where its step ends.
#![tactic(auto)]

ghost use Rattle.pd_suspend.specs.Laws.{CountersSee, NewIsIdle, SeesTheEnd, SeesOneMore, ArmsTheStep, StepsFollowStops, OneMoreIsNumbered, ScriptsAreLawful};

mod answerer;
mod context;
mod script;
mod stepper;
mod suspension;

pub use answerer::Answerer;
pub use context::ContextRecord;
pub use script::{ScriptAnswerer, copy_answer, copy_resume, goes_on, scripted_answer};
pub use stepper::{Step, Stepper};
pub use suspension::{Anchor, FrameView, Reason, Suspension, Variable};

/// A stepper that is armed at each suspension of its session, and sees each event, answers exactly where the step that
/// the session's last suspension left ends.
pub fn stepping_law()
    ensures counters { CountersSee }
    ensures new { NewIsIdle }
    ensures end { SeesTheEnd }
    ensures more { SeesOneMore }
    ensures arm { ArmsTheStep }
    ensures steps { StepsFollowStops }
    ensures numbered { OneMoreIsNumbered }
{}

/// Acts of the answers of a sound plan's scripts are on bindings of the plan, of which only observers are switched on or
/// off, and the numbers of their ways to go on are in range.
pub fn script_law()
    ensures { ScriptsAreLawful }
{}
