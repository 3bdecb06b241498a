//! `pd_load`: two sources with two exports of the second and one context at the first.
ghost use Rattle.std.specs.Prelude.{◌≡◌, length, IfOk};
ghost use Rattle.pd_plan.specs.Sound.{IsSound, ContextFits};

use crate::fixtures::{source, text};
use pd_load::{LoadCause, LoadRefusal, load};
use pd_plan::{ContextSpec, ExportSpec, Language, Plan, SourceSpec};
use pd_sections::{Refusal, Rule, Stop};
use pd_tree::{Meaning, Program};
use pd_values::{Items, NodeId};
use std::alloc::{AllocError, Global};
use std::process::Abort;
use std::test::Fail;

fn spec(alloc: Global, language: Language) -> Result<SourceSpec, AllocError> {
    let name = text(alloc, "t")?;
    Ok(SourceSpec { name, language })
}

fn export(alloc: Global, name: &str, item: &str) -> Result<ExportSpec, AllocError>
    ensures { IfOk result (λ e. e.source ≡ 1) }
{
    let name = text(alloc, name)?;
    let item = text(alloc, item)?;
    let source = 1;
    Ok(ExportSpec { name, source, item })
}

fn context(alloc: Global, entry: &str) -> Result<ContextSpec, AllocError>
    ensures source { IfOk result (λ c. c.source ≡ 0) }
    ensures fits { IfOk result ContextFits }
{
    let entry = text(alloc, entry)?;
    let (source, fuel) = (0, 1);
    Ok(ContextSpec {
        source,
        entry,
        fuel,
    })
}

/// A plan with an SL source and a second one, two exports of the second and an entry of the first.
pub fn plan(
    alloc: Global,
    second: Language,
    names: [&str; 2],
    items: [&str; 2],
    entry: &str,
) -> Result<Plan, AllocError>
    ensures sound { IfOk result IsSound }
    ensures two { IfOk result (λ p. length p.sources ≡ 2) }
{
    let sources = Items::of(vec![in alloc; spec(alloc, Language::Sl)?, spec(alloc, second)?]?);
    let first = export(alloc, names[0], items[0])?;
    let next = export(alloc, names[1], items[1])?;
    let exports = Items::of(vec![in alloc; first, next]?);
    let contexts = Items::of(vec![in alloc; context(alloc, entry)?]?);
    let bindings = Items::of(Vec::new(alloc));
    let sessions = Items::of(Vec::new(alloc));
    Ok(Plan {
        sources,
        exports,
        contexts,
        bindings,
        sessions,
    })
}

/// The items that names mean, in the order of the nodes.
fn shown(alloc: Global, program: &Program) -> Result<String, AllocError> {
    let mut text = String::new(alloc);
    for n in 0..program.nodes() {
        if let Meaning::Item(item) = program.meaning(NodeId(n)) {
            text.push_str(format!(in alloc; "{item} ")?.as_str())?;
        }
    }
    Ok(text)
}

/// The program of two sources, or the first refusal.
pub fn loaded(
    rt: &impl Abort,
    alloc: Global,
    sources: [&str; 2],
    plan: &Plan,
) -> Result<Result<Program, Stop<LoadRefusal>>, Fail>
    requires sound { IsSound plan.now }
    requires two { length plan.now.sources ≡ 2 }
{
    let sources = [
        source(rt, alloc, sources[0])?,
        source(rt, alloc, sources[1])?,
    ];
    Ok(load(alloc, sources.as_slice(), plan))
}

const FIRST: &str =
    "function f() { } function f() { g(); } function main() { f(); println(h()); z; }";

fn expect_items(
    rt: &impl Abort,
    alloc: Global,
    second: &str,
    plan: &Plan,
    expected: &str,
) -> Result<(), Fail>
    requires sound { IsSound plan.now }
    requires two { length plan.now.sources ≡ 2 }
{
    let program = loaded(rt, alloc, [FIRST, second], plan)??;
    let found = shown(alloc, &program)?;
    assert_eq!(rt; found.as_str(), expected);
    Ok(())
}

fn expect_refusal(
    rt: &impl Abort,
    alloc: Global,
    second: &str,
    plan: &Plan,
    expected: LoadRefusal,
) -> Result<(), Fail>
    requires sound { IsSound plan.now }
    requires two { length plan.now.sources ≡ 2 }
{
    let refused = loaded(rt, alloc, [FIRST, second], plan)?.err();
    assert_eq!(rt; refused, Some(Stop::Refused(expected)));
    Ok(())
}

/// What refuses the export of this number, at the second source.
fn no_such_item(export: u32) -> LoadRefusal {
    LoadRefusal {
        source: 1,
        cause: LoadCause::NoSuchItem { export },
    }
}

/// What refuses the second source, at this byte.
fn unexpected(at: u32) -> LoadRefusal {
    let rule = Rule::Unexpected;
    LoadRefusal {
        source: 1,
        cause: LoadCause::Spelling(Refusal { rule, at }),
    }
}

const FUNCTIONS: &str =
    "function g() { println(1); } function k() { g(); } function println(a) { }";

#[test]
fn functions(rt: HostRuntime) -> Result<(), Fail> {
    let alloc = rt.alloc();
    let plan = plan(alloc, Language::Sl, ["g", "h"], ["g", "k"], "main")?;
    expect_items(&rt, alloc, FUNCTIONS, &plan, "4 2 0 5 6 4 ")
}

#[test]
fn absent_entry(rt: HostRuntime) -> Result<(), Fail> {
    let alloc = rt.alloc();
    let plan = plan(alloc, Language::Sl, ["g", "h"], ["g", "k"], "x")?;
    let expected = LoadRefusal {
        source: 0,
        cause: LoadCause::NoSuchEntry { context: 0 },
    };
    expect_refusal(&rt, alloc, FUNCTIONS, &plan, expected)
}

#[test]
fn absent_item(rt: HostRuntime) -> Result<(), Fail> {
    let alloc = rt.alloc();
    let plan = plan(alloc, Language::Sl, ["g", "h"], ["g", "x"], "x")?;
    expect_refusal(&rt, alloc, FUNCTIONS, &plan, no_such_item(1))
}

#[test]
fn doubled_export(rt: HostRuntime) -> Result<(), Fail> {
    let alloc = rt.alloc();
    let plan = plan(alloc, Language::Sl, ["g", "g"], ["g", "x"], "x")?;
    let expected = LoadRefusal {
        source: 1,
        cause: LoadCause::DoubledExport { export: 1 },
    };
    expect_refusal(&rt, alloc, FUNCTIONS, &plan, expected)?;
    expect_refusal(&rt, alloc, "function g( { }", &plan, unexpected(12))
}

const PROCEDURES: &str =
    "procedure p; procedure q; call p; begin call q; call g end; procedure r; call h; call p.";

#[test]
fn procedures(rt: HostRuntime) -> Result<(), Fail> {
    let alloc = rt.alloc();
    let plan = plan(alloc, Language::Pl0, ["g", "h"], ["p", "r"], "main")?;
    expect_items(&rt, alloc, PROCEDURES, &plan, "5 2 0 7 5 6 5 7 5 ")
}

#[test]
fn inner_procedure(rt: HostRuntime) -> Result<(), Fail> {
    let alloc = rt.alloc();
    let plan = plan(alloc, Language::Pl0, ["g", "h"], ["p", "q"], "main")?;
    expect_refusal(&rt, alloc, PROCEDURES, &plan, no_such_item(1))?;
    expect_refusal(&rt, alloc, "begin end", &plan, unexpected(9))
}
