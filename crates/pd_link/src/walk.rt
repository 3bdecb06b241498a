//! The walk over the nodes: in which function or procedure each stands, and which variables it sees.
ghost use Rattle.std.specs.Prelude.{◌≡◌, ◌+◌, ◌<◌, ◌≤◌, ◌^◌, [], ◌∷◌, List, length, IfOk, OnOk};
ghost use Rattle.pd_tree.specs.declared.addition.Addition.{Addition};
ghost use Rattle.pd_tree.specs.declared.change.Change.{Change};
ghost use Rattle.pd_tree.specs.Kinds as kinds;
ghost use Rattle.pd_tree.specs.Linked as definition;
ghost use Rattle.pd_tree.specs.Kept as kept;
ghost use Rattle.pd_link.specs.Linking as linking;
ghost use Rattle.pd_link.specs.Walks as walks;

use crate::scope::{seen_behind, seen_inside};
use crate::shape::Shape;
use pd_tree::{Addition, Change, Kind, Meaning, Place, parameters_seen};
use pd_values::NodeId;
use std::alloc::{AllocError, Global};

/// A node of which parts may still come.
#[derive(Drop)]
pub struct Opened {
    pub node: u32,
    pub left: u32,
    pub first: bool,
    pub root: NodeId,
    pub level: u32,
    pub outside: usize,
}

/// A walk over the nodes in the order of their numbers.
#[derive(Drop)]
pub struct Walker {
    /// The nodes of which parts may still come, from the outermost inward.
    pub opened: Vec<Opened>,
    /// The changes of what is seen so far.
    pub changes: Vec<Change>,
    /// The number of the list that is seen after the last node.
    pub seen: usize,
}

impl Walker {
    /// The walk before the first node. It takes no memory.
    pub fn new(alloc: Global) -> Walker
        ensures kept { (all : List Addition) → walks.IsKeptTo all 0 result }
        ensures start { (all : List Addition) → walks.walk_of all result ≡ record { open_nodes = []; seen = [] } }
    {
        Walker {
            opened: Vec::new(alloc),
            changes: Vec::new(alloc),
            seen: 0,
        }
    }

    /// Goes over node `n`, which has these parts and slots and for whose name this item was found, and says where it
    /// stands. A program has at most 65,536 nodes.
    pub fn step(
        &mut self,
        all: &[Addition],
        n: u32,
        found: Option<u32>,
        parts: &[NodeId],
        shape: Shape,
    ) -> Result<Place, AllocError>
        requires kept { walks.IsKeptTo all.now n self.old }
        requires within { n < length all.now }
        requires few { length all.now ≤ 65536 }
        requires names { length (definition.names_in (definition.kind_at all.now n)) < 2 ^ 32 }
        requires parts { linking.IsIn parts.now shape.parts }
        ensures { IfOk result (λ p. walks.Steps all.now n found parts.now shape self.old self.new p) }
    {
        let addition = &all[n as usize];
        let slots = slots(*self.opened.allocator(), &addition.kind, shape.assigned)?;
        let stands = self.stands(all);
        let root = self.root(all, n);
        let level = self.level(all, n);
        let outside = self.seen;
        let inside = seen_inside(&addition.kind, &mut self.changes, n, outside)?;
        let opened = Opened {
            node: n,
            left: addition.children,
            first: true,
            root,
            level,
            outside,
        };
        self.enter(all, opened, inside)?;
        Ok(Place {
            parts: shape.parts,
            sees: seen_at(&addition.kind, outside, inside),
            meaning: linked(addition.meaning, found),
            stands,
            root,
            level,
            slots,
        })
    }

    /// Whether the next node stands as a statement or as a condition.
    fn stands(&self, all: &[Addition]) -> bool
        requires { walks.AllOpenAt (length all.now) (walks.walk_of all.now self.now).open_nodes }
        ensures { result ≡ definition.next_stands all.now (walks.walk_of all.now self.now).open_nodes }
    {
        match self.opened.last() {
            Some(last) => holds_statements(&all[last.node as usize].kind, last.first),
            None => false,
        }
    }

    /// The function or procedure in which the next node stands, node `n`.
    fn root(&self, all: &[Addition], n: u32) -> NodeId
        requires { n < length all.now }
        ensures { result ≡ definition.next_root (definition.kind_at all.now n) n (walks.walk_of all.now self.now).open_nodes }
    {
        let kind = &all[n as usize].kind;
        match self.opened.last() {
            Some(last) if !is_root(kind) => last.root,
            _ => NodeId(n),
        }
    }

    /// How many procedures stand around that one.
    fn level(&self, all: &[Addition], n: u32) -> u32
        requires within { n < length all.now }
        requires near { walks.AllOpenAt 65536 (walks.walk_of all.now self.now).open_nodes }
        ensures { result ≡ definition.next_level (definition.kind_at all.now n) (walks.walk_of all.now self.now).open_nodes }
    {
        let kind = &all[n as usize].kind;
        match self.opened.last() {
            Some(last) if is_root(kind) => last.level + 1,
            Some(last) => last.level,
            None => 0,
        }
    }

    /// Opens a node after whose first byte this list is seen, and ends it and those around it to which no part comes
    /// any more.
    fn enter(&mut self, all: &[Addition], next: Opened, inside: usize) -> Result<(), AllocError>
        requires opened { linking.AllOpenedIn self.old.changes.items self.old.opened.items }
        requires outside { next.outside ≤ length self.old.changes.items }
        requires inside { inside ≤ length self.old.changes.items }
        requires nodes { walks.AllOpenAt (length all.now) (linking.open_in all.now self.old.changes.items next
            ∷ definition.part_came (linking.opens_in all.now self.old.changes.items self.old.opened.items)) }
        ensures { OnOk result (walks.Walks all.now self.old.changes.items self.new.changes.items
            (length self.old.changes.items + (length self.old.opened.items + 1)) self.new.opened.items self.new.seen
            (definition.closed all.now (linking.open_in all.now self.old.changes.items next
            ∷ definition.part_came (linking.opens_in all.now self.old.changes.items self.old.opened.items))
            (kept.list_at all.now self.old.changes.items inside))) }
    {
        part_came(&mut self.opened)?;
        self.opened.push(next)?;
        self.seen = close(all, &mut self.opened, &mut self.changes, inside)?;
        Ok(())
    }
}

/// One part less is to come to the innermost node.
fn part_came(opened: &mut Vec<Opened>) -> Result<(), AllocError>
    ensures came { (all : List Addition) (changes : List Change) → OnOk result (linking.opens_in all changes opened.new.items
        ≡ definition.part_came (linking.opens_in all changes opened.old.items)) }
    ensures within { (changes : List Change) → linking.AllOpenedIn changes opened.old.items
        → OnOk result (linking.AllOpenedIn changes opened.new.items) }
    ensures count { OnOk result (length opened.new.items ≡ length opened.old.items) }
{
    if let Some(last) = opened.pop() {
        opened.push(Opened {
            node: last.node,
            left: last.left.saturating_sub(1),
            first: false,
            root: last.root,
            level: last.level,
            outside: last.outside,
        })?;
    }
    Ok(())
}

/// Ends the nodes to which no part comes any more, and says which list is seen then.
fn close(
    all: &[Addition],
    opened: &mut Vec<Opened>,
    changes: &mut Vec<Change>,
    inside: usize,
) -> Result<usize, AllocError>
    requires opened { linking.AllOpenedIn changes.old.items opened.old.items }
    requires inside { inside ≤ length changes.old.items }
    requires nodes { walks.AllOpenAt (length all.now) (linking.opens_in all.now changes.old.items opened.old.items) }
    ensures { IfOk result (λ s. walks.Walks all.now changes.old.items changes.new.items
        (length changes.old.items + length opened.old.items) opened.new.items s
        (definition.closed all.now (linking.opens_in all.now changes.old.items opened.old.items)
        (kept.list_at all.now changes.old.items inside))) }
{
    let mut seen = inside;
    while let Some(last) = opened.pop() {
        if last.left > 0 {
            opened.push(last)?;
            return Ok(seen);
        }
        let kind = &all[last.node as usize].kind;
        seen = seen_behind(kind, changes, last.node, last.outside, seen)?;
    }
    Ok(seen)
}

/// Whether the parts of a node stand as statements, or as a condition, which is the first part.
fn holds_statements(kind: &Kind, first: bool) -> bool
    ensures { result ≡ kinds.holds_statements kind.now first }
{
    match kind {
        Kind::SlBody | Kind::SlBlock => true,
        Kind::SlIf | Kind::SlWhile => first,
        _ => false,
    }
}

/// Whether a node is a function or a procedure.
fn is_root(kind: &Kind) -> bool
    ensures { result ≡ kinds.is_root kind.now }
{
    matches!(kind, Kind::SlFunction { .. } | Kind::PlProcedure { .. })
}

/// What a name means for which this item was found.
fn linked(meaning: Meaning, found: Option<u32>) -> Meaning
    ensures { result ≡ definition.linked meaning found }
{
    match found {
        Some(item) => Meaning::Item(item),
        None => meaning,
    }
}

/// The number of the list that a node sees: a function or a procedure what is seen behind its first byte, and any other
/// node what is seen before it.
fn seen_at(kind: &Kind, outside: usize, inside: usize) -> usize
    ensures { result ≡ walks.number_at kind.now outside inside }
{
    if is_root(kind) { inside } else { outside }
}

/// How many variables a function or a procedure has, where the assignments after it use so many slots.
fn slots(alloc: Global, kind: &Kind, assigned: u32) -> Result<u32, AllocError>
    requires { length (definition.names_in kind.now) < 2 ^ 32 }
    ensures { IfOk result (λ n. n ≡ walks.slots_by kind.now assigned) }
{
    match kind {
        Kind::SlFunction { parameters, .. } => {
            let seen = parameters_seen(alloc, parameters.as_slice())?;
            Ok(assigned.max(seen.len() as u32))
        }
        Kind::PlProcedure { variables, .. } => Ok(variables.as_slice().len() as u32),
        _ => Ok(0),
    }
}
