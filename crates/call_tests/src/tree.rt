//! `pd_tree`: nodes that are added, and rows of the tables.
use crate::fixtures::text;
use crate::load::{loaded, plan};
use pd_plan::Language;
use pd_sections::Section;
use pd_tree::{Builder, Kind, Meaning, Operator, Program};
use pd_values::{Items, NodeId, Tag};
use std::alloc::Global;
use std::process::Abort;
use std::test::Fail;

/// Three nodes of `function f() { 1; }`.
#[test]
fn nodes_are_added(rt: HostRuntime) -> Result<(), Fail> {
    let alloc = rt.alloc();
    let mut builder = Builder::new(alloc);
    let section = Section {
        source: 0,
        start: 0,
        len: 19,
    };
    let parameters = Items::of(Vec::new(alloc));
    let name = text(alloc, "f")?;
    let function = Kind::SlFunction { name, parameters };
    builder.add(function, section, 1, 1, Meaning::Nothing, 1)?;
    builder.add(Kind::SlBody, section, 1, 14, Meaning::Nothing, 1)?;
    builder.add(Kind::SlNumber(1), section, 1, 16, Meaning::Nothing, 0)?;
    Ok(())
}

const SL: &str =
    "function main(a, b, c, x) { f(x); while (1) { } debugger; } function f() { f(x); }";

const PL0: &str = "procedure p; ; if odd 1 + 1 then .";

/// A node's kind with what its name means, as far as the rows below tell kinds apart.
fn label(kind: &Kind, meaning: Meaning) -> &'static str {
    match kind {
        Kind::SlCall => "call",
        Kind::SlWhile => "while",
        Kind::SlDebugger => "debugger",
        Kind::PlOdd => "odd",
        Kind::PlBinary(Operator::Add) => "sum",
        Kind::SlName(_) => match meaning {
            Meaning::Local { up: 0, slot: 3 } => "local",
            Meaning::Nothing => "nothing",
            _ => "name",
        },
        _ => "other",
    }
}

fn expect_label(rt: &impl Abort, program: &Program, n: u32, expected: &str) {
    assert!(rt; n < program.nodes());
    let node = NodeId(n);
    assert_eq!(rt;
        label(program.kind(node), program.meaning(node)),
        expected,
        "node {n}"
    );
}

fn expect_tags(rt: &impl Abort, program: &Program, n: u32, expected: &[Tag]) {
    assert!(rt; n < program.nodes());
    assert_eq!(rt; program.tags(NodeId(n)), expected, "node {n}");
}

fn expect_has(rt: &impl Abort, program: &Program, n: u32, tag: Tag, expected: bool) {
    assert!(rt; n < program.nodes());
    assert_eq!(rt; program.has(NodeId(n), tag), expected, "node {n}");
}

fn expect_kinds(rt: &impl Abort, program: &Program) {
    expect_label(rt, program, 2, "call");
    expect_label(rt, program, 4, "local");
    expect_label(rt, program, 5, "while");
    expect_label(rt, program, 8, "debugger");
    expect_label(rt, program, 13, "nothing");
    expect_label(rt, program, 20, "odd");
    expect_label(rt, program, 21, "sum");
}

fn expect_all_tags(rt: &impl Abort, program: &Program) {
    let called = [Tag::Expression, Tag::Call, Tag::Statement];
    expect_tags(rt, program, 2, called.as_slice());
    let read = [Tag::Expression, Tag::ReadVariable];
    expect_tags(rt, program, 4, read.as_slice());
    expect_tags(rt, program, 5, &[]);
    let condition = [Tag::Expression, Tag::Statement];
    expect_tags(rt, program, 20, condition.as_slice());
    let sum = [Tag::Expression];
    expect_tags(rt, program, 21, sum.as_slice());
    expect_has(rt, program, 8, Tag::AlwaysHalt, true);
    expect_has(rt, program, 13, Tag::ReadVariable, false);
}

/// Rows of the tables of kinds, by nodes of two sources.
#[test]
fn tags_by_the_tables(rt: HostRuntime) -> Result<(), Fail> {
    let plan = plan(rt.alloc(), Language::Pl0, ["g", "h"], ["p", "p"], "main")?;
    let program = loaded(&rt, rt.alloc(), [SL, PL0], &plan)??;
    expect_kinds(&rt, &program);
    expect_all_tags(&rt, &program);
    Ok(())
}

const SEEN_SL: &str =
    "function main(a, b) { x = 1; if (x < 2) { y = x; y; } y = 2; b; } function f() { 1; }";

const SEEN_PL0: &str =
    "var a, b; procedure p; var b; procedure a; ; call a; procedure q; const b = 1; var x; x := a; call p.";

/// Compares the variables that a node sees, each with its name, how many blocks outward it is, and its slot.
fn expect_seen(
    rt: &impl Abort,
    alloc: Global,
    program: &Program,
    n: u32,
    expected: &str,
) -> Result<(), Fail> {
    assert!(rt; n < program.nodes());
    let mut seen = String::new(alloc);
    let variables = program.sees(alloc, NodeId(n))?;
    for v in variables.as_slice() {
        let name = v.name.as_str();
        seen.push_str(format!(in alloc; "{name} {} {}, ", v.up, v.slot)?.as_str())?;
    }
    assert_eq!(rt; seen.as_str(), expected, "node {n}");
    Ok(())
}

/// What is seen at nodes of a function: its parameters, and from each assignment to the end of its block one variable.
#[test]
fn seen_in_a_function(rt: HostRuntime) -> Result<(), Fail> {
    let alloc = rt.alloc();
    let plan = plan(alloc, Language::Pl0, ["g", "h"], ["p", "q"], "main")?;
    let program = loaded(&rt, alloc, [SEEN_SL, SEEN_PL0], &plan)??;
    expect_seen(&rt, alloc, &program, 0, "a 0 0, b 0 1, ")?;
    expect_seen(&rt, alloc, &program, 3, "a 0 0, b 0 1, ")?;
    expect_seen(&rt, alloc, &program, 4, "a 0 0, b 0 1, x 0 2, ")?;
    expect_seen(&rt, alloc, &program, 11, "a 0 0, b 0 1, x 0 2, y 0 3, ")?;
    expect_seen(&rt, alloc, &program, 12, "a 0 0, b 0 1, x 0 2, ")?;
    expect_seen(&rt, alloc, &program, 14, "a 0 0, b 0 1, x 0 2, y 0 4, ")?;
    expect_seen(&rt, alloc, &program, 17, "")
}

/// What is seen at nodes of procedures, where names of variables, constants and procedures hide those further out.
#[test]
fn seen_in_procedures(rt: HostRuntime) -> Result<(), Fail> {
    let alloc = rt.alloc();
    let plan = plan(alloc, Language::Pl0, ["g", "h"], ["p", "q"], "main")?;
    let program = loaded(&rt, alloc, [SEEN_SL, SEEN_PL0], &plan)??;
    expect_seen(&rt, alloc, &program, 18, "a 0 0, b 0 1, ")?;
    expect_seen(&rt, alloc, &program, 19, "b 0 0, ")?;
    expect_seen(&rt, alloc, &program, 20, "b 1 0, ")?;
    expect_seen(&rt, alloc, &program, 23, "b 0 0, ")?;
    expect_seen(&rt, alloc, &program, 25, "x 0 0, a 1 0, ")?;
    expect_seen(&rt, alloc, &program, 28, "x 0 0, a 1 0, ")?;
    expect_seen(&rt, alloc, &program, 30, "a 0 0, b 0 1, ")
}
