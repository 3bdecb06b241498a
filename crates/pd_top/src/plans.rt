//! The plan that `trace` runs.
ghost use Rattle.std.specs.Prelude.{◌≡◌, [], ◌∷◌, IfOk};
ghost use Rattle.pd_plan.specs.Sound.{IsSound};
ghost use Rattle.pd_top.specs.Plans.{is_pl0_name, language_of, statements, trace_plan};

use pd_plan::{BindingSpec, ContextSpec, Filter, Language, Plan, Script, SourceSpec};
use pd_values::{Items, Tag, Text};
use std::alloc::{AllocError, Global};

// The fuel of the context: how many nodes its run may enter.
const FUEL: u32 = 1_000_000;

// A list of this one item.
fn one<T: Drop>(alloc: Global, item: T) -> Result<Items<T>, AllocError>
    ensures { IfOk result (λ items. items ≡ item ∷ []) }
{
    let mut items = Vec::new(alloc);
    items.push(item)?;
    Ok(Items::of(items))
}

fn none<T: Drop>(alloc: Global) -> Items<T>
    ensures { result ≡ [] }
{
    Items::of(Vec::new(alloc))
}

// All nodes with the tag Statement.
fn statements(alloc: Global) -> Result<Filter, AllocError>
    ensures { IfOk result (λ filter. filter ≡ statements) }
{
    Ok(Filter {
        tags: one(alloc, Tag::Statement)?,
        not_tags: none(alloc),
        sources: none(alloc),
        lines: none(alloc),
        roots: none(alloc),
    })
}

fn is_pl0_name(name: &str) -> bool
    ensures { result ≡ is_pl0_name name.now }
{
    name.ends_with(".pl0")
}

// The language of a source, by the end of its name.
fn language_of(name: &str) -> Language
    ensures { result ≡ language_of name.now }
{
    if is_pl0_name(name) {
        Language::Pl0
    } else {
        Language::Sl
    }
}

/// The plan with the one source of this name, one context at its `main`, and one observer of statements that the one
/// session attaches before the run.
pub(crate) fn trace_plan(alloc: Global, name: &str) -> Result<Plan, AllocError>
    ensures plan { IfOk result (λ plan. plan ≡ trace_plan name.now) }
    ensures sound { IfOk result IsSound }
{
    let source = SourceSpec {
        name: Text::of(String::from_str(alloc, name)?),
        language: language_of(name),
    };
    let context = ContextSpec {
        source: 0,
        entry: Text::of(String::from_str(alloc, "main")?),
        fuel: FUEL,
    };
    let session = Script {
        before: one(alloc, 0)?,
        actions: none(alloc),
        answers: none(alloc),
    };
    Ok(Plan {
        sources: one(alloc, source)?,
        exports: none(alloc),
        contexts: one(alloc, context)?,
        bindings: one(alloc, BindingSpec::Observe(statements(alloc)?))?,
        sessions: one(alloc, session)?,
    })
}
