//! The statements that an observer is about, source by source.
ghost use Rattle.std.specs.Prelude.{◌≡◌, ◌<◌, ◌&&◌, ◌++◌, ◌∷◌, [], length, map, slice_set, slice_index_or, replicate, IfOk, OnOk};
ghost use Rattle.std.specs.List.{range_with_len};
ghost use Rattle.pd_break.specs.Resolving.{is_statement};
ghost use Rattle.pd_filter.specs.Matching.{satisfies};
ghost use Rattle.pd_coverage.specs.Coverage.{statements_of};

use pd_break::is_stop;
use pd_filter::sat;
use pd_plan::Filter;
use pd_tree::Program;
use pd_values::{Items, NodeId};
use std::alloc::{AllocError, Global};

// So many empty lists.
fn empty_lists(alloc: Global, count: usize) -> Result<Vec<Items<NodeId>>, AllocError>
    ensures { IfOk result (λ lists. lists.items ≡ replicate count []) }
{
    let mut lists = Vec::new(alloc);
    for _source in 0..count {
        lists.push(Items::of(Vec::new(alloc)))?;
    }
    Ok(lists)
}

// Whether a node is a statement that satisfies the filter.
fn is_watched(filter: &Filter, program: &Program, n: NodeId) -> bool
    requires { n < length program.now.nodes }
    ensures { result ≡ (is_statement program.now n && satisfies filter.now program.now n) }
{
    is_stop(program, n) && sat(filter, program, n)
}

// Puts a node at the end of the list of this number, if there is one.
fn add(lists: &mut Vec<Items<NodeId>>, at: usize, node: NodeId) -> Result<(), AllocError>
    ensures { OnOk result (lists.new.items ≡ slice_set lists.old.items at (slice_index_or lists.old.items at [] ++ node ∷ [])) }
{
    if at < lists.len() {
        lists[at].push(node)?;
    }
    Ok(())
}

/// The statements that satisfy the filter, rising, for each of so many sources. It looks at each node once.
pub(crate) fn statements(
    alloc: Global,
    filter: &Filter,
    program: &Program,
    sources: usize,
) -> Result<Vec<Items<NodeId>>, AllocError>
    ensures { IfOk result (λ lists. lists.items ≡ map (statements_of program.now (satisfies filter.now program.now)) (range_with_len 0 sources)) }
{
    let mut lists = empty_lists(alloc, sources)?;
    for n in 0..program.nodes() {
        let node = NodeId(n);
        if is_watched(filter, program, node) {
            add(&mut lists, program.section(node).source as usize, node)?;
        }
    }
    Ok(lists)
}
