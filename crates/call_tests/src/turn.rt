//! `pd_turn`: some trees whose nodes stand behind their parts.
use pd_turn::{Node, before};
use std::test::Fail;

/// The trees a(b(c), d) and e: c b d a e behind their parts, a b c d e before them.
#[test]
fn two_trees(rt: HostRuntime) -> Result<(), Fail> {
    let mut nodes = Vec::new(rt.alloc());
    for (what, parts) in [(b'c', 0), (b'b', 1), (b'd', 0), (b'a', 2), (b'e', 0)] {
        nodes.push(Node { what, parts })?;
    }
    let turned = before(rt.alloc(), nodes)?;
    let mut names = String::new(rt.alloc());
    for node in &turned {
        names.push(char::from(node.what))?;
    }
    assert_eq!(rt; names.as_str(), "abcde");
    Ok(())
}
