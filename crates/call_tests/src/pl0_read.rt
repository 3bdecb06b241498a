//! `pd_pl0_read`: a source with its nodes, by hand from the table of nodes.
use crate::fixtures::source;
use pd_pl0_lex::lex;
use pd_pl0_read::parts_of;
use std::test::Fail;

/// Each node by its first token, the one after its last, and the number of its parts.
#[test]
fn answers(rt: HostRuntime) -> Result<(), Fail> {
    let text = "procedure p; ; begin call p; ! -1 end.";
    let source = source(&rt, rt.alloc(), text)?;
    let tokens = lex(rt.alloc(), &source)?;
    let mut found = String::new(rt.alloc());
    let nodes = parts_of(rt.alloc(), &source, &tokens, 10)?;
    for node in &nodes {
        let part = node.what;
        let line = format!(in rt.alloc(); "{}-{} {};", part.first, part.end, node.parts)?;
        found.push_str(line.as_str())?;
    }
    let expected = "0-13 2;0-3 1;3-3 1;3-3 0;4-12 1;4-12 2;5-7 0;8-11 1;9-11 1;10-11 0;";
    assert_eq!(rt; found.as_str(), expected);
    assert!(rt; parts_of(rt.alloc(), &source, &tokens, 9).is_err());
    Ok(())
}
