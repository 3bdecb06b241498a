//! What reads a value of one kind, and refusals with their paths.
ghost use Rattle.std.specs.Prelude.{◌≡◌, [], decimal, codes, ◌++◌};
ghost use Rattle.serde_json.specs.Data.{Data};
ghost use Rattle.serde_json.specs.View.{view};
ghost use Rattle.pd_plan_json.specs.Reading.{Read, Gives, Stops, IsUnder, member_step, entry_step};

use pd_plan::{PlanRefusal, PlanRule};
use pd_values::{Stop, Text};
use serde_json::Value;
use std::alloc::{AllocError, Global};

/// Reads a JSON value of one kind.
pub(crate) trait Reader {
    /// What is read.
    type Output: Drop;

    ghost reads: { Self → Data → Read Self.Output };

    /// What the value is, or the first broken rule with its path from this value.
    fn read(&self, alloc: Global, value: &Value) -> Result<Self::Output, Stop<PlanRefusal>>
        ensures { Gives result (reads self.now (view value.now)) };
}

/// A rule that is broken at the value itself.
pub(crate) fn refusal(alloc: Global, rule: PlanRule) -> Stop<PlanRefusal>
    ensures { Stops result rule [] }
{
    let path = Text::of(String::new(alloc));
    Stop::Refused(PlanRefusal { rule, path })
}

/// The same refusal, seen from the object around the member: its path has the member's name first.
pub(crate) fn in_member(alloc: Global, name: &str, stop: Stop<PlanRefusal>) -> Stop<PlanRefusal>
    ensures { IsUnder (member_step name.now) stop result }
{
    match stop {
        Stop::Memory => Stop::Memory,
        Stop::Refused(refusal) => {
            let inner = refusal.path.as_str();
            match format!(in alloc; "/{name}{inner}") {
                Ok(path) => Stop::Refused(PlanRefusal {
                    rule: refusal.rule,
                    path: Text::of(path),
                }),
                Err(_) => Stop::Memory,
            }
        }
    }
}

/// The same refusal, seen from the list around the entry: its path has the entry's index first.
pub(crate) fn in_entry(alloc: Global, index: usize, stop: Stop<PlanRefusal>) -> Stop<PlanRefusal>
    ensures { IsUnder (entry_step index) stop result }
{
    match stop {
        Stop::Memory => Stop::Memory,
        Stop::Refused(refusal) => {
            let inner = refusal.path.as_str();
            match format!(in alloc; "/{index}{inner}") {
                Ok(path) => Stop::Refused(PlanRefusal {
                    rule: refusal.rule,
                    path: Text::of(path),
                }),
                Err(_) => Stop::Memory,
            }
        }
    }
}
