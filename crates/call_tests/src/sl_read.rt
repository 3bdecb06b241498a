//! `pd_sl_read`: sources with the tokens of their nodes, by hand from the tables of nodes. What the nodes are, and damaged
//! sources with their places, are cases of `sl_tree_cases`.
use crate::fixtures::source;
use pd_sections::{Refusal, Rule, Stop};
use pd_sl_lex::lex;
use pd_sl_read::{Part, parts_of};
use pd_turn::Node;
use std::alloc::{AllocError, Global};
use std::process::Abort;
use std::test::Fail;

/// The nodes, each as the numbers of its first token and of the one after its last, and its parts.
fn shown(alloc: Global, nodes: &[Node<Part>]) -> Result<String, AllocError> {
    let mut text = String::new(alloc);
    for node in nodes {
        let part = node.what;
        let line = format!(in alloc; "{}-{} {};", part.first, part.end, node.parts)?;
        text.push_str(line.as_str())?;
    }
    Ok(text)
}

fn read(
    rt: &impl Abort,
    alloc: Global,
    text: &str,
    room: u32,
) -> Result<Result<Vec<Node<Part>>, Stop<Refusal>>, Fail> {
    let source = source(rt, alloc, text)?;
    let tokens = lex(alloc, &source)?;
    Ok(parts_of(alloc, &source, &tokens, room))
}

fn expect(rt: &impl Abort, alloc: Global, text: &str, expected: &str) -> Result<(), Fail> {
    let nodes = read(rt, alloc, text, 65_536)??;
    let found = shown(alloc, nodes.as_slice())?;
    assert_eq!(rt; found.as_str(), expected);
    Ok(())
}

#[test]
fn answers(rt: HostRuntime) -> Result<(), Fail> {
    for (text, expected) in [
        (
            "function main() { println(1 + 2 * 3); }",
            "0-15 1;4-15 1;5-13 2;5-6 0;7-12 2;7-8 0;9-12 2;9-10 0;11-12 0;",
        ),
        (
            "function f(a, b) { return (a - b) - 1; }",
            "0-18 1;7-18 1;8-16 1;9-16 2;10-13 2;10-11 0;12-13 0;15-16 0;",
        ),
        (
            "function m() { while (x < 1) { x = y = x + 1; if (x) { break; } else { } } }",
            "0-33 1;4-33 1;5-32 2;7-10 2;7-8 0;9-10 0;11-32 2;12-19 1;14-19 1;16-19 2;16-17 0;18-19 0;20-31 3;22-23 0;24-28 1;25-26 0;29-31 0;",
        ),
        (
            "function m() { f(a)(b) || \"t\" == 2 && x; }",
            "0-20 1;4-20 1;5-18 2;5-12 2;5-9 2;5-6 0;7-8 0;10-11 0;13-18 2;13-16 2;13-14 0;15-16 0;17-18 0;",
        ),
        (
            "function m() { debugger; return; } function n() { if (1) { n(); } }",
            "0-10 1;4-10 2;5-6 0;7-8 0;10-26 1;14-26 1;15-25 2;17-18 0;19-25 1;20-23 1;20-21 0;",
        ),
        (
            "function m() { 9223372036854775807; }",
            "0-8 1;4-8 1;5-6 0;",
        ),
    ] {
        expect(&rt, rt.alloc(), text, expected)?;
    }
    Ok(())
}

#[test]
fn too_many_nodes(rt: HostRuntime) -> Result<(), Fail> {
    let refused = read(&rt, rt.alloc(), "function m() { 1; }", 2)?.err();
    let rule = Rule::TooManyNodes;
    assert_eq!(rt; refused, Some(Stop::Refused(Refusal { rule, at: 19 })));
    Ok(())
}
