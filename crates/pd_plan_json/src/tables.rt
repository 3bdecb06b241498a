//! The table of a plan.
ghost use Rattle.serde_json.specs.View.{view};
ghost use Rattle.pd_plan_json.specs.Reading.{Gives};
ghost use Rattle.pd_plan_json.specs.Tables as table;

use crate::bindings::BindingTable;
use crate::members::{Table, list_of, required_of};
use crate::program::{CONTEXT, ContextMembers, EXPORT, ExportMembers, SOURCE, SourceMembers};
use crate::reader::Reader;
use crate::sessions::SessionMembers;
use crate::shapes::{ListIn, NumberIn};
use pd_plan::{Plan, PlanRefusal};
use pd_values::Stop;
use serde_json::Value;
use std::alloc::Global;

// The versions of the format; what a plan may have is the same in both.
const VERSIONS: NumberIn = NumberIn { low: 1, high: 2 };

const SOURCES: ListIn<Table<SourceMembers>> = ListIn {
    low: 1,
    high: 16,
    entry: SOURCE,
};

const EXPORTS: ListIn<Table<ExportMembers>> = ListIn {
    low: 0,
    high: 256,
    entry: EXPORT,
};

const CONTEXTS: ListIn<Table<ContextMembers>> = ListIn {
    low: 1,
    high: 16,
    entry: CONTEXT,
};

const BINDINGS: ListIn<BindingTable> = ListIn {
    low: 0,
    high: 4096,
    entry: BindingTable,
};

const SESSION: &[&str] = &["before", "actions", "answers"];

/// Reads the members of a plan.
#[derive(Drop)]
struct PlanMembers;

impl Reader for PlanMembers {
    type Output = Plan;

    ghost reads = { λ _. table.plan_members };

    #[tactic(auto, unfolding(crate::specs::Tables::plan_members))]
    fn read(&self, alloc: Global, value: &Value) -> Result<Plan, Stop<PlanRefusal>> {
        let version = required_of(alloc, value, "version", &VERSIONS)?;
        let sources = required_of(alloc, value, "sources", &SOURCES)?;
        let exports = list_of(alloc, value, "exports", &EXPORTS)?;
        let contexts = required_of(alloc, value, "contexts", &CONTEXTS)?;
        let bindings = list_of(alloc, value, "bindings", &BINDINGS)?;
        let sessions = ListIn {
            low: 0,
            high: 16,
            entry: Table {
                names: SESSION,
                members: SessionMembers { version },
            },
        };
        let sessions = list_of(alloc, value, "sessions", &sessions)?;
        Ok(Plan {
            sources,
            exports,
            contexts,
            bindings,
            sessions,
        })
    }
}

const PLAN: Table<PlanMembers> = Table {
    names: &[
        "version", "sources", "exports", "contexts", "bindings", "sessions",
    ],
    members: PlanMembers,
};

/// A plan.
#[tactic(auto, unfolding(crate::specs::Tables::plan))]
pub(crate) fn plan_in(alloc: Global, value: &Value) -> Result<Plan, Stop<PlanRefusal>>
    ensures { Gives result (table.plan (view value.now)) }
{
    PLAN.read(alloc, value)
}
