//! The plan of the workload.
ghost use Rattle.std.specs.Prelude.{◌≡◌, [], ◌∷◌, IfOk, codes};
ghost use Rattle.pd_values.specs.declared.value.Tag.TheVariants.{Root, Statement};
ghost use Rattle.pd_plan.specs.declared.plan.Language.TheVariants.{Sl, Pl0};
ghost use Rattle.pd_gen.specs.Workload.{run_of_main, observer_of, workload_plan};

use crate::lists::{none, one, two};
use pd_plan::{BindingSpec, ContextSpec, ExportSpec, Filter, Language, Plan, Script, SourceSpec};
use pd_values::{Items, Tag, Text};
use std::alloc::{AllocError, Global};

// The fuel of a context: how many nodes its run may enter.
const FUEL: u32 = 1_000_000;

fn text_of(alloc: Global, text: &str) -> Result<Text, AllocError>
    ensures { IfOk result (λ made. made ≡ text.now) }
{
    Ok(Text::of(String::from_str(alloc, text)?))
}

// The sources by their names.
fn sources(alloc: Global) -> Result<Items<SourceSpec>, AllocError>
    ensures { IfOk result (λ specs. specs ≡ record { name = codes "gen.sl"; language = Sl } ∷ record { name = codes "gen.pl0"; language = Pl0 } ∷ []) }
{
    let sl = SourceSpec {
        name: text_of(alloc, "gen.sl")?,
        language: Language::Sl,
    };
    let pl0 = SourceSpec {
        name: text_of(alloc, "gen.pl0")?,
        language: Language::Pl0,
    };
    two(alloc, sl, pl0)
}

// The procedure of the second source, under its own name.
fn exports(alloc: Global) -> Result<Items<ExportSpec>, AllocError>
    ensures { IfOk result (λ specs. specs ≡ record { name = codes "pass"; source = 1; item = codes "pass" } ∷ []) }
{
    let pass = ExportSpec {
        name: text_of(alloc, "pass")?,
        source: 1,
        item: text_of(alloc, "pass")?,
    };
    one(alloc, pass)
}

// A run of `main` of the first source.
fn run_of_main(alloc: Global) -> Result<ContextSpec, AllocError>
    ensures { IfOk result (λ spec. spec ≡ run_of_main) }
{
    Ok(ContextSpec {
        source: 0,
        entry: text_of(alloc, "main")?,
        fuel: FUEL,
    })
}

// Four runs of `main`.
fn contexts(alloc: Global) -> Result<Items<ContextSpec>, AllocError>
    ensures { IfOk result (λ specs. specs ≡ run_of_main ∷ run_of_main ∷ run_of_main ∷ run_of_main ∷ []) }
{
    let mut contexts = two(alloc, run_of_main(alloc)?, run_of_main(alloc)?)?;
    contexts.push(run_of_main(alloc)?)?;
    contexts.push(run_of_main(alloc)?)?;
    Ok(contexts)
}

// The observer of all nodes with this tag.
fn observer_of(alloc: Global, tag: Tag) -> Result<BindingSpec, AllocError>
    ensures { IfOk result (λ spec. spec ≡ observer_of tag) }
{
    Ok(BindingSpec::Observe(Filter {
        tags: one(alloc, tag)?,
        not_tags: none(alloc),
        sources: none(alloc),
        lines: none(alloc),
        roots: none(alloc),
    }))
}

// The observers of functions and of statements.
fn observers(alloc: Global) -> Result<Items<BindingSpec>, AllocError>
    ensures { IfOk result (λ specs. specs ≡ observer_of Root ∷ observer_of Statement ∷ []) }
{
    let roots = observer_of(alloc, Tag::Root)?;
    let statements = observer_of(alloc, Tag::Statement)?;
    two(alloc, roots, statements)
}

// The session that attaches both observers before the run.
fn sessions(alloc: Global) -> Result<Items<Script>, AllocError>
    ensures { IfOk result (λ scripts. scripts ≡ record { before = 0 ∷ 1 ∷ []; actions = []; answers = [] } ∷ []) }
{
    let script = Script {
        before: two(alloc, 0, 1)?,
        actions: none(alloc),
        answers: none(alloc),
    };
    one(alloc, script)
}

/// The plan with four contexts at `main`, of which two observers are told all functions and all statements.
pub(crate) fn workload_plan(alloc: Global) -> Result<Plan, AllocError>
    ensures { IfOk result (λ plan. plan ≡ workload_plan) }
{
    Ok(Plan {
        sources: sources(alloc)?,
        exports: exports(alloc)?,
        contexts: contexts(alloc)?,
        bindings: observers(alloc)?,
        sessions: sessions(alloc)?,
    })
}
