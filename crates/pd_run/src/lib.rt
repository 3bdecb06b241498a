//! The run of a plan: its report, and the law from what the seats of contexts and sessions leave to it.
#![tactic(auto)]

mod closing;
mod report;

ghost use Rattle.pd_run.specs.Done.{ReportsAreRuns};
ghost use Rattle.pd_run.specs.Record.{RecordsAreHands, StopsAreByEvent};
ghost use Rattle.pd_run.specs.Laws.{LivesAreTold, AnswersAreTold, ScriptsAreTold};

pub use closing::closed;
pub use report::Report;

/// Where a board was closed over the seats of contexts and sessions, its tally goes with what they tell.
pub fn history_law()
    ensures lives { LivesAreTold }
    ensures answers { AnswersAreTold }
    ensures scripts { ScriptsAreTold }
    ensures records { RecordsAreHands }
    ensures by_event { StopsAreByEvent }
{}

/// Where a run of a plan is over and its board closed, its report is the plan's run.
pub fn report_law()
    ensures { ReportsAreRuns }
{}
