//! The places of all nodes.
ghost use Rattle.std.specs.Prelude.{◌≡◌, ◌<◌, ◌≤◌, ◌^◌, length, IfOk};
ghost use Rattle.pd_tree.specs.Linked as definition;
ghost use Rattle.pd_tree.specs.Kept as kept;
ghost use Rattle.pd_link.specs.Walks as walks;

use crate::shape::{Shapes, shapes_of};
use crate::walk::Walker;
use pd_tree::{Addition, Change, Place};
use pd_values::NodeId;
use std::alloc::{AllocError, Global};

/// The places of nodes, the parts of which they have stretches, and the changes of what is seen.
#[derive(Drop)]
pub struct Places {
    pub places: Vec<Place>,
    pub parts: Vec<NodeId>,
    pub changes: Vec<Change>,
}

/// The places of these nodes, at most 65,536, where items were found for the names of some.
pub fn places_of(
    alloc: Global,
    all: &[Addition],
    found: &[Option<u32>],
) -> Result<Places, AllocError>
    requires complete { definition.AllComplete all.now }
    requires few { length all.now ≤ 65536 }
    requires found { length found.now ≡ length all.now }
    ensures nodes { IfOk result (λ p. kept.nodes_in p.parts.items p.changes.items all.now all.now p.places.items
        ≡ definition.nodes_of all.now found.now) }
    ensures beside { IfOk result (λ p. length p.places.items ≡ length all.now) }
    ensures within { IfOk result (λ p. walks.AllPlacesIn p.parts.items p.changes.items p.places.items) }
    ensures before { IfOk result (λ p. kept.AllBefore 0 p.changes.items) }
    ensures few_changes { IfOk result (λ p. length p.changes.items < 2 ^ 32) }
{
    let Shapes { parts, mut shapes } = shapes_of(alloc, all)?;
    let mut walker = Walker::new(alloc);
    let mut places = Vec::new(alloc);
    let mut n = 0;
    while let Some(shape) = shapes.pop() {
        let item = found[n];
        let place = walker.step(all, n as u32, item, parts.as_slice(), shape)?;
        places.push(place)?;
        n += 1;
    }
    Ok(Places {
        places,
        parts,
        changes: walker.changes,
    })
}
