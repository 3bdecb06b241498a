//! What is counted so far.
ghost use Rattle.std.specs.Prelude.{◌≡◌, ◌<◌, ◌^◌, ◌++◌, ◌∷◌, [], None, OnOk, IfOk};
ghost use Rattle.pd_running.specs.Running.{mark_in};
ghost use Rattle.pd_paths.specs.Counting.{IsFirst, HasRoom, HasCount, IsKeptBy, IsCountedTo, IsBegunAt, IsUnderWay, HasPassed, inner_of, slot};

use crate::PathCount;
use pd_log::Entry;
use pd_machine::EventKind;
use pd_values::{Items, NodeId};
use std::alloc::{AllocError, Global};
use std::collections::BTreeMap;

/// The paths so far, and where the walk over the log stands.
#[derive(Drop)]
pub(crate) struct Counter {
    /// Each path that began, in the order in which they did. The first is the empty one.
    pub(crate) paths: Vec<PathCount>,
    /// For each path the one around its last node.
    pub(crate) outer: Vec<u32>,
    /// The path that a path and a further node make.
    pub(crate) inner: BTreeMap<u64, u32>,
    /// The path of what runs.
    pub(crate) at: u32,
    /// The number of the first event that isn't counted.
    pub(crate) next: u32,
}

// A path with one more node.
fn longer(alloc: Global, path: &[NodeId], node: NodeId) -> Result<Items<NodeId>, AllocError>
    ensures { IfOk result (λ p. p ≡ path.now ++ node ∷ []) }
{
    let mut nodes = Vec::new(alloc);
    for n in path {
        nodes.push(*n)?;
    }
    nodes.push(node)?;
    Ok(Items::of(nodes))
}

// Where the path of this number and a further node is looked up.
fn slot_of(path: u32, node: NodeId) -> u64
    ensures slot { result ≡ slot path node }
    ensures small { node < 2 ^ 32 }
{
    path as u64 * 4294967296 + node.0 as u64
}

impl Counter {
    /// Nothing is counted.
    pub(crate) fn new(alloc: Global) -> Result<Counter, AllocError>
        ensures { IfOk result IsFirst }
    {
        let mut paths = Vec::new(alloc);
        let mut outer = Vec::new(alloc);
        paths.push(PathCount {
            path: Items::of(Vec::new(alloc)),
            count: 0,
            own: 0,
        })?;
        outer.push(0)?;
        Ok(Counter {
            paths,
            outer,
            inner: BTreeMap::new(alloc),
            at: 0,
            next: 0,
        })
    }

    /// The events below this number that aren't counted yet belong to the path of what runs.
    pub(crate) fn count_to(&mut self, end: u32)
        requires { HasRoom end self.now }
        ensures { IsCountedTo end self.old self.new }
    {
        self.paths[self.at as usize].own += end - self.next;
        self.next = end;
    }

    // An activation of the node begins, with a path that is new.
    fn grow(&mut self, alloc: Global, node: NodeId) -> Result<(), AllocError>
        requires kept { IsKeptBy self.now }
        requires room { HasCount self.now }
        requires new { inner_of self.now (slot self.now.at node) ≡ None }
        ensures { OnOk result (IsBegunAt node self.old self.new) }
    {
        let path = longer(alloc, self.paths[self.at as usize].path.as_slice(), node)?;
        let next = self.paths.len() as u32;
        self.paths.push(PathCount {
            path,
            count: 1,
            own: 0,
        })?;
        self.outer.push(self.at)?;
        self.inner.insert(slot_of(self.at, node), next)?;
        self.at = next;
        Ok(())
    }

    // The path that a node makes of the path of what runs, if it began before.
    fn known(&self, node: NodeId) -> Option<u32>
        ensures path { result ≡ inner_of self.now (slot self.now.at node) }
        ensures small { node < 2 ^ 32 }
    {
        self.inner.get(&slot_of(self.at, node)).copied()
    }

    // An activation of the node begins.
    fn begin(&mut self, alloc: Global, node: NodeId) -> Result<(), AllocError>
        requires kept { IsKeptBy self.now }
        requires room { HasCount self.now }
        ensures { OnOk result (IsBegunAt node self.old self.new) }
    {
        match self.known(node) {
            Some(path) => {
                self.paths[path as usize].count += 1;
                self.at = path;
                Ok(())
            }
            None => self.grow(alloc, node),
        }
    }

    /// Counts the events up to the next entry, and the activation that it begins or ends.
    pub(crate) fn pass(&mut self, alloc: Global, entry: &Entry) -> Result<(), AllocError>
        requires { IsUnderWay (mark_in entry.now) self.now }
        ensures { OnOk result (HasPassed (mark_in entry.now) self.old self.new) }
    {
        match entry.kind {
            EventKind::Enter => {
                self.count_to(entry.event);
                self.begin(alloc, entry.node)?;
                Ok(())
            }
            _ => {
                self.count_to(entry.event + 1);
                self.at = self.outer[self.at as usize];
                Ok(())
            }
        }
    }
}
