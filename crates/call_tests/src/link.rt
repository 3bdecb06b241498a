//! `pd_link`: a source that is linked.
use crate::fixtures::text;
use pd_link::link;
use pd_sections::Section;
use pd_tree::{Builder, Kind, Meaning};
use pd_values::{Items, NodeId};
use std::test::Fail;

/// The nodes of `.`, a main block that does nothing.
#[test]
fn a_main_block(rt: HostRuntime) -> Result<(), Fail> {
    let alloc = rt.alloc();
    let section = Section {
        source: 0,
        start: 0,
        len: 1,
    };
    let name = text(alloc, "")?;
    let variables = Items::of(Vec::new(alloc));
    let block = Kind::PlProcedure { name, variables };
    let mut builder = Builder::new(alloc);
    builder.add(block, section, 1, 1, Meaning::Nothing, 1)?;
    builder.add(Kind::PlBody, section, 1, 1, Meaning::Nothing, 1)?;
    builder.add(Kind::PlEmpty, section, 1, 1, Meaning::Nothing, 0)?;
    let mut trees = Vec::new(alloc);
    trees.push(builder.finish())?;
    let found = vec![in alloc; None, None, None]?;
    let entries = vec![in alloc; 1]?;
    let program = link(alloc, trees, found, entries)?;
    assert_eq!(rt; program.nodes(), 3);
    assert_eq!(rt; program.root(NodeId(2)).0, 0);
    assert_eq!(rt; program.entry(0), 1);
    Ok(())
}
