//! The nodes of each line.
ghost use Rattle.std.specs.Prelude.{◌≡◌, ℕ, ◌<◌, ◌^◌, map, filter, length, IfOk};
ghost use Rattle.std.specs.List.Sorted.{IsSortedBy};
ghost use Rattle.pd_tree.specs.Program.{node_at};
ghost use Rattle.pd_break.specs.Resolving.{all_nodes};
ghost use Rattle.pd_index.specs.Places.{node_of, comes_before, place_of, is_tagged};

use pd_tree::Program;
use pd_values::NodeId;
use std::alloc::{AllocError, Global};

/// The nodes with a tag, source behind source and line behind line, and on a line rising.
#[derive(Drop)]
pub(crate) struct Lines {
    /// Where each of the nodes stands.
    places: Vec<Place>,
    /// Beside each place its node.
    nodes: Vec<NodeId>,
    /// The sources that have nodes with a tag, rising.
    sources: Vec<u32>,
    ghost beside: { nodes.items ≡ map node_of places.items },
    ghost sorted: { IsSortedBy comes_before places.items },
}

/// Where a node stands: places are in order of their sources, then of their lines, then of their nodes.
#[derive(Clone, Copy, Drop, PartialEq, Eq, PartialOrd, Ord)]
pub(crate) struct Place {
    source: u32,
    line: u32,
    node: u32,
}

impl Lines {
    ghost use Rattle.pd_index.specs.Kept.{between, HasLines};

    /// The lines of a program. Where the nodes stand in the order of the text, it takes time by their number `n`, else
    /// by `n * log n`. The only error is `AllocError`, where memory runs out.
    pub(crate) fn of(alloc: Global, program: &Program) -> Result<Lines, AllocError>
        ensures { IfOk result (HasLines program.now) }
    {
        let mut places = places(alloc, program)?;
        places.sort_unstable();
        let mut nodes = Vec::new(alloc);
        let mut sources = Vec::new(alloc);
        for place in places.as_slice() {
            nodes.push(NodeId(place.node))?;
            sources.push(place.source)?;
        }
        sources.dedup();
        Ok(Lines {
            places,
            nodes,
            sources,
        })
    }

    /// The nodes with a tag that start on one of these lines of this source, line behind line. Lines that the source
    /// doesn't have have no nodes, and so have the lines of a source that isn't there. It takes no memory.
    pub(crate) fn stretch(&self, source: u32, from: u32, to: u32) -> &[NodeId]
        ensures { result.now ≡ between self.now source from to }
    {
        let first = Place {
            source,
            line: from,
            node: 0,
        };
        let last = Place {
            source,
            line: to,
            node: u32::MAX,
        };
        let start = self
            .places
            .partition_point(|place| place.cmp(&first).is_lt());
        let end = self
            .places
            .partition_point(|place| place.cmp(&last).is_le());
        &self.nodes.as_slice()[start..end.max(start)]
    }

    /// The sources that have nodes with a tag.
    pub(crate) fn sources(&self) -> &[u32]
        ensures { result.now ≡ self.now.sources.items }
    {
        self.sources.as_slice()
    }
}

// Where each node with a tag stands.
fn places(alloc: Global, program: &Program) -> Result<Vec<Place>, AllocError>
    ensures few { length program.now.nodes < 2 ^ 32 }
    ensures fit { IfOk result (λ v. (n : ℕ) → n < length program.now.nodes → (node_at program.now n).line < 2 ^ 32) }
    ensures places { IfOk result (λ v. v.items ≡ map (place_of program.now) (filter (is_tagged program.now) (all_nodes program.now))) }
{
    let mut places = Vec::new(alloc);
    for n in 0..program.nodes() {
        let node = NodeId(n);
        let place = stands_at(program, node);
        if has_tags(program, node) {
            places.push(place)?;
        }
    }
    Ok(places)
}

fn has_tags(program: &Program, n: NodeId) -> bool
    requires { n < length program.now.nodes }
    ensures { result ≡ is_tagged program.now n }
{
    !program.tags(n).is_empty()
}

fn stands_at(program: &Program, n: NodeId) -> Place
    requires { n < length program.now.nodes }
    ensures place { result ≡ place_of program.now n }
    ensures fits { (node_at program.now n).line < 2 ^ 32 }
{
    Place {
        source: program.section(n).source,
        line: program.line(n),
        node: n.0,
    }
}
