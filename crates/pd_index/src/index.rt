//! Lists of the nodes of each tag and of each line.
ghost use Rattle.std.specs.Prelude.{◌≡◌, IfOk};
ghost use Rattle.pd_tree.specs.Program.{Program as Linked};
ghost use Rattle.pd_index.specs.Indexing as indexing;
ghost use Rattle.pd_index.specs.Kept.{IsIndexOf, list_of};

use crate::lines::Lines;
use pd_tree::Program;
use pd_values::{Items, NodeId, Tag};
use std::alloc::{AllocError, Global};

/// For each tag and for each line of each source of a program the nodes that have it.
#[derive(Drop)]
pub struct NodeIndex {
    statements: Items<NodeId>,
    calls: Items<NodeId>,
    roots: Items<NodeId>,
    bodies: Items<NodeId>,
    expressions: Items<NodeId>,
    reads: Items<NodeId>,
    writes: Items<NodeId>,
    halts: Items<NodeId>,
    pub(crate) lines: Lines,
}

impl NodeIndex {
    /// The index of a program. Where the nodes stand in the order of the text, it takes time by their number `n`, else by
    /// `n * log n`. The only error is `AllocError`, where memory runs out.
    pub fn build(alloc: Global, program: &Program) -> Result<NodeIndex, AllocError>
        ensures { IfOk result (IsIndexOf program.now) }
    {
        Ok(NodeIndex {
            statements: tagged(alloc, program, Tag::Statement)?,
            calls: tagged(alloc, program, Tag::Call)?,
            roots: tagged(alloc, program, Tag::Root)?,
            bodies: tagged(alloc, program, Tag::RootBody)?,
            expressions: tagged(alloc, program, Tag::Expression)?,
            reads: tagged(alloc, program, Tag::ReadVariable)?,
            writes: tagged(alloc, program, Tag::WriteVariable)?,
            halts: tagged(alloc, program, Tag::AlwaysHalt)?,
            lines: Lines::of(alloc, program)?,
        })
    }

    /// All nodes with this tag, rising. It takes no memory.
    pub fn by_tag(&self, tag: Tag) -> &[NodeId]
        ensures { (p : Linked) → IsIndexOf p self.now → result.now ≡ indexing.tagged p tag }
    {
        self.list(tag)
    }

    /// The list that is kept for this tag.
    pub(crate) fn list(&self, tag: Tag) -> &[NodeId]
        ensures { result.now ≡ list_of self.now tag }
    {
        match tag {
            Tag::Statement => self.statements.as_slice(),
            Tag::Call => self.calls.as_slice(),
            Tag::Root => self.roots.as_slice(),
            Tag::RootBody => self.bodies.as_slice(),
            Tag::Expression => self.expressions.as_slice(),
            Tag::ReadVariable => self.reads.as_slice(),
            Tag::WriteVariable => self.writes.as_slice(),
            Tag::AlwaysHalt => self.halts.as_slice(),
        }
    }

    /// All nodes with a tag whose section starts on this line of this source, rising; none for a line that the source
    /// doesn't have. It takes no memory.
    pub fn by_line(&self, source: u32, line: u32) -> &[NodeId]
        ensures { (p : Linked) → IsIndexOf p self.now → result.now ≡ indexing.on_line p source line }
    {
        self.lines.stretch(source, line, line)
    }
}

// The nodes with this tag, rising.
fn tagged(alloc: Global, program: &Program, tag: Tag) -> Result<Items<NodeId>, AllocError>
    ensures { IfOk result (λ nodes. nodes ≡ indexing.tagged program.now tag) }
{
    let mut nodes = Vec::new(alloc);
    for n in 0..program.nodes() {
        let node = NodeId(n);
        if program.has(node, tag) {
            nodes.push(node)?;
        }
    }
    Ok(Items::of(nodes))
}
