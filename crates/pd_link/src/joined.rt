//! The nodes of all sources, one source after another.
ghost use Rattle.std.specs.Prelude.{◌≡◌, IfOk, OnOk};
ghost use Rattle.pd_tree.specs.Linked.{joined};
ghost use Rattle.pd_link.specs.Linking.{AllWhole};

use pd_tree::{Addition, Tree};
use std::alloc::{AllocError, Global};

/// The nodes of these sources in the order of their numbers. The additions are moved, names and all.
pub fn join(alloc: Global, trees: Vec<Tree>) -> Result<Vec<Addition>, AllocError>
    ensures joined { IfOk result (λ v. v.items ≡ joined trees.items) }
    ensures whole { OnOk result (AllWhole trees.items) }
{
    let mut all = Vec::new(alloc);
    for tree in trees {
        all.append(&mut tree.into_additions())?;
    }
    Ok(all)
}
