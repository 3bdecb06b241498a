//! The program of all sources.
ghost use Rattle.std.specs.Prelude.{◌≡◌, ◌≤◌, length, IfOk};
ghost use Rattle.pd_tree.specs.Linked as definition;
ghost use Rattle.pd_link.specs.Linking as linking;

use crate::items::{Listed, list_items, list_mains};
use crate::joined::join;
use crate::places::{Places, places_of};
use pd_tree::{Lists, Program, Tree};
use std::alloc::{AllocError, Global};

/// The program of these trees, in the order of their sources. `found` has for each node the item that its name means,
/// if one was found; `entries` an item for each context. Conditions: the trees have at most 65,536 nodes together, and
/// none of their names means an item so far. Where memory runs out it answers `AllocError`.
pub fn link(
    alloc: Global,
    trees: Vec<Tree>,
    found: Vec<Option<u32>>,
    entries: Vec<u32>,
) -> Result<Program, AllocError>
    requires few { length (definition.joined trees.items) ≤ 65536 }
    requires found { length found.items ≡ length (definition.joined trees.items) }
    requires unlinked { linking.AllUnlinked (definition.joined trees.items) }
    requires found_items { linking.AllFound (length (definition.items_of (definition.joined trees.items))) found.items }
    requires entry_items { linking.AllBelow (length (definition.items_of (definition.joined trees.items))) entries.items }
    ensures { IfOk result (λ p. p ≡ definition.program_of trees.items found.items entries.items) }
{
    let mains = list_mains(alloc, trees.as_slice())?;
    let additions = join(alloc, trees)?;
    let Listed { names, roots } = list_items(alloc, additions.as_slice())?;
    let Places {
        places,
        parts,
        changes,
    } = places_of(alloc, additions.as_slice(), found.as_slice())?;
    Ok(Program::keep(Lists {
        additions,
        places,
        parts,
        changes,
        names,
        roots,
        mains,
        entries,
    }))
}
