//! From a case to its program.
ghost use Rattle.std.specs.Prelude.{◌≡◌, [], ◌∷◌, IfOk};
ghost use Rattle.run_cases.specs.Plans.{case_plan};

use crate::case::Case;
use pd_load::load;
use pd_plan::{ContextSpec, Language, Plan, SourceSpec};
use pd_sections::{MOST_BYTES, Source, Stop};
use pd_tree::Program;
use pd_values::{Items, Text};
use std::alloc::{AllocError, Global};

// A list of this one item.
fn one<T: Drop>(alloc: Global, item: T) -> Result<Items<T>, AllocError>
    ensures { IfOk result (λ items. items ≡ item ∷ []) }
{
    let mut items = Vec::new(alloc);
    items.push(item)?;
    Ok(Items::of(items))
}

fn none<T: Drop>(alloc: Global) -> Items<T>
    ensures { result ≡ [] }
{
    Items::of(Vec::new(alloc))
}

/// The plan with one source in this language and one context at its `main`.
fn plan_of(alloc: Global, language: Language) -> Result<Plan, AllocError>
    ensures { IfOk result (λ plan. plan ≡ case_plan language) }
{
    let source = SourceSpec {
        name: Text::of(String::from_str(alloc, "case")?),
        language,
    };
    let context = ContextSpec {
        source: 0,
        entry: Text::of(String::from_str(alloc, "main")?),
        fuel: 1,
    };
    Ok(Plan {
        sources: one(alloc, source)?,
        exports: none(alloc),
        contexts: one(alloc, context)?,
        bindings: none(alloc),
        sessions: none(alloc),
    })
}

/// The program of a case; `None` where its source is refused.
pub fn program_of(alloc: Global, case: &Case) -> Result<Option<Program>, AllocError> {
    if case.source.len() > MOST_BYTES {
        return Ok(None);
    }
    let Ok(source) = Source::new(alloc, String::new(alloc), case.source.clone()?) else {
        return Ok(None);
    };
    let plan = plan_of(alloc, case.language)?;
    match load(alloc, &[source], &plan) {
        Ok(program) => Ok(Some(program)),
        Err(Stop::Refused(_)) => Ok(None),
        Err(Stop::Memory) => Err(AllocError),
    }
}
