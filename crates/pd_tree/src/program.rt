//! The nodes of all sources, linked.
ghost use Rattle.std.specs.Prelude.{◌≡◌, ◌<◌, length, slice_index, slice_index_or, None, IfOk};
ghost use Rattle.pd_tree.specs.Program.{node_at, item_at, item_names, has_tag};
ghost use Rattle.pd_tree.specs.Kinds.{root_name_of};
ghost use Rattle.pd_tree.specs.WellFormed.{IsWellFormed, IsLinked};
ghost use Rattle.pd_tree.specs.Kept.{kept_program, IsKept, IsAdditionOf, IsPlaceOf};

use crate::addition::Addition;
use crate::change::Change;
use crate::kind::{Kind, Meaning, Visible};
use crate::place::{Place, stretch};
use crate::seen::{list_of, seen_by};
use crate::tags::{has_tag, tags};
use pd_sections::Section;
use pd_values::{NodeId, Tag, Text};
use std::alloc::{AllocError, Global};
use std::marker::Model;

/// The lists that keep a linked program.
#[derive(Drop)]
pub struct Lists {
    /// The nodes of all sources as they were added, by number.
    pub additions: Vec<Addition>,
    /// Beside each node its place.
    pub places: Vec<Place>,
    /// The parts of all nodes; a place has a stretch of them.
    pub parts: Vec<NodeId>,
    /// The changes of what is seen from node to node; a place has the number of the list that they lead to.
    pub changes: Vec<Change>,
    /// The names of the items.
    pub names: Vec<Text>,
    /// The root of each item, if it has one.
    pub roots: Vec<Option<u32>>,
    /// The main block of each source, if it has one.
    pub mains: Vec<Option<u32>>,
    /// The item that each context calls.
    pub entries: Vec<u32>,
}

/// A linked program: the nodes of all sources by their numbers, the items, and the entries of the contexts.
#[derive(Drop)]
pub struct Program {
    additions: Vec<Addition>,
    places: Vec<Place>,
    parts: Vec<NodeId>,
    changes: Vec<Change>,
    names: Vec<Text>,
    roots: Vec<Option<u32>>,
    mains: Vec<Option<u32>>,
    entries: Vec<u32>,
}

impl Model for Program {
    ghost use Rattle.pd_tree.specs.Program.{Program};
    ghost use Rattle.pd_tree.specs.Kept.{kept_program, IsKept};
    ghost use Rattle.pd_tree.specs.WellFormed.{IsWellFormed};

    ghost Value = { Program };

    ghost view = { λ p. kept_program p.parts.items p.changes.items p.additions.items p.places.items
        p.names.items p.roots.items p.mains.items p.entries.items };

    ghost invariant = { λ p.
        IsKept p.parts.items p.changes.items p.additions.items p.places.items p.names.items p.roots.items ×
        IsWellFormed (kept_program p.parts.items p.changes.items p.additions.items p.places.items
        p.names.items p.roots.items p.mains.items p.entries.items) };
}

impl Program {
    /// The program that these lists keep. It takes no memory.
    pub fn keep(lists: Lists) -> Program
        requires kept { IsKept lists.parts.items lists.changes.items lists.additions.items lists.places.items
            lists.names.items lists.roots.items }
        requires linked { IsWellFormed (kept_program lists.parts.items lists.changes.items lists.additions.items
            lists.places.items lists.names.items lists.roots.items lists.mains.items lists.entries.items) }
        ensures { result ≡ kept_program lists.parts.items lists.changes.items lists.additions.items
            lists.places.items lists.names.items lists.roots.items lists.mains.items lists.entries.items }
    {
        Program {
            additions: lists.additions,
            places: lists.places,
            parts: lists.parts,
            changes: lists.changes,
            names: lists.names,
            roots: lists.roots,
            mains: lists.mains,
            entries: lists.entries,
        }
    }

    /// How many nodes there are; their numbers are below that.
    pub fn nodes(&self) -> u32
        ensures count { result ≡ length self.now.nodes }
        ensures linked { IsWellFormed self.now }
    {
        self.additions.len() as u32
    }

    /// What is true of every program, for callers' proofs. It does nothing.
    pub fn is_linked(&self)
        ensures { IsWellFormed self.now }
    {
        self.nodes();
    }

    /// The kind of a node.
    pub fn kind(&self, n: NodeId) -> &Kind
        requires { n < length self.now.nodes }
        ensures { result.now ≡ (node_at self.now n).kind }
    {
        &self.addition(n).kind
    }

    /// The parts of a node from left to right.
    pub fn children(&self, n: NodeId) -> &[NodeId]
        requires { n < length self.now.nodes }
        ensures { result.now ≡ (node_at self.now n).children }
    {
        stretch(&self.parts, self.places[n.0 as usize].parts)
    }

    /// The variables that a frame sees at a node. They are made anew by each call, from the changes that lead to them:
    /// it takes time by their number and by the number of the variables. Where memory runs out it answers
    /// `AllocError`.
    pub fn sees(&self, alloc: Global, n: NodeId) -> Result<Vec<Visible>, AllocError>
        requires { n < length self.now.nodes }
        ensures { IfOk result (λ v. v.items ≡ (node_at self.now n).sees) }
    {
        let additions = self.additions.as_slice();
        let place = &self.places[n.0 as usize];
        let seen = list_of(alloc, additions, self.changes.as_slice(), place.sees)?;
        let parts = stretch(&self.parts, place.parts);
        seen_by(additions, parts, &additions[n.0 as usize].kind, seen)
    }

    /// The tags of a node.
    pub fn tags(&self, n: NodeId) -> &[Tag]
        requires { n < length self.now.nodes }
        ensures { result.now ≡ (node_at self.now n).tags }
    {
        let place = self.place(n);
        tags(self.kind(n), place.meaning, place.stands)
    }

    /// Whether a node has a tag.
    pub fn has(&self, n: NodeId, tag: Tag) -> bool
        requires { n < length self.now.nodes }
        ensures { result ≡ has_tag (node_at self.now n).tags tag }
    {
        has_tag(self.tags(n), tag)
    }

    /// From a node's first token to its last.
    pub fn section(&self, n: NodeId) -> Section
        requires { n < length self.now.nodes }
        ensures source { result.source ≡ (node_at self.now n).source }
        ensures start { result.start ≡ (node_at self.now n).start }
        ensures len { result.len ≡ (node_at self.now n).len }
    {
        self.addition(n).section
    }

    /// The line of the first byte of a node's section, from 1.
    pub fn line(&self, n: NodeId) -> u32
        requires { n < length self.now.nodes }
        ensures { result ≡ (node_at self.now n).line }
    {
        self.addition(n).line
    }

    /// The column of the first byte of a node's section, from 1, in bytes.
    pub fn column(&self, n: NodeId) -> u32
        requires { n < length self.now.nodes }
        ensures { result ≡ (node_at self.now n).column }
    {
        self.addition(n).column
    }

    /// The function or procedure in which a node stands; a root stands in itself.
    pub fn root(&self, n: NodeId) -> NodeId
        requires { n < length self.now.nodes }
        ensures { result ≡ (node_at self.now n).root }
    {
        self.place(n).root
    }

    /// How many procedures stand around the function or procedure in which a node stands: 0 for a function and for a
    /// main block, 1 for a procedure that is declared directly in a main block.
    pub fn level(&self, n: NodeId) -> u32
        requires { n < length self.now.nodes }
        ensures { result ≡ (node_at self.now n).level }
    {
        self.place(n).level
    }

    /// What a node's name means.
    pub fn meaning(&self, n: NodeId) -> Meaning
        requires { n < length self.now.nodes }
        ensures { result ≡ (node_at self.now n).meaning }
    {
        self.place(n).meaning
    }

    /// How many variables a function or procedure has, parameters included; 0 for any other node.
    pub fn slots(&self, root: NodeId) -> u32
        requires { root < length self.now.nodes }
        ensures { result ≡ (node_at self.now root).slots }
    {
        self.place(root).slots
    }

    /// The name of the function or procedure in which a node stands.
    pub fn root_name(&self, n: NodeId) -> &Text
        requires { n < length self.now.nodes }
        ensures { result.now ≡ root_name_of (node_at self.now (node_at self.now n).root).kind }
    {
        match self.kind(self.place(n).root) {
            Kind::SlFunction { name, .. } | Kind::PlProcedure { name, .. } => name,
            _ => unreachable!(),
        }
    }

    /// The names of the items.
    pub fn names(&self) -> &[Text]
        ensures { result.now ≡ item_names self.now }
    {
        self.names.as_slice()
    }

    /// The function, procedure or main block that an item is, and `None` for item 0, the built-in `println`.
    pub fn root_of(&self, item: u32) -> Option<NodeId>
        requires { item < length self.now.items }
        ensures { result ≡ (item_at self.now item).root }
    {
        match self.roots[item as usize] {
            Some(n) => Some(NodeId(n)),
            None => None,
        }
    }

    /// The main block of a source: that of PL/0, and `None` for SL.
    pub fn main_of(&self, source: u32) -> Option<NodeId>
        requires { source < length self.now.mains }
        ensures { result ≡ slice_index_or self.now.mains source None }
    {
        match self.mains[source as usize] {
            Some(n) => Some(NodeId(n)),
            None => None,
        }
    }

    /// The main block of each source, by its number.
    pub fn mains(&self) -> &[Option<u32>]
        ensures { result.now ≡ self.now.mains }
    {
        self.mains.as_slice()
    }

    /// The item that a context calls.
    pub fn entry(&self, context: u32) -> u32
        requires { context < length self.now.entries }
        ensures { result ≡ slice_index self.now.entries context }
    {
        self.entries[context as usize]
    }

    /// The addition of a node.
    fn addition(&self, n: NodeId) -> &Addition
        requires { n < length self.now.nodes }
        ensures { IsAdditionOf (node_at self.now n) result.now }
    {
        &self.additions[n.0 as usize]
    }

    /// The place of a node.
    fn place(&self, n: NodeId) -> &Place
        requires { n < length self.now.nodes }
        ensures place { IsPlaceOf (node_at self.now n) result.now }
        ensures linked { IsLinked self.now n }
    {
        &self.places[n.0 as usize]
    }
}
