//! The items of a program, and the main block of each source.
ghost use Rattle.std.specs.Prelude.{◌≡◌, ◌≤◌, true, false, length, IfOk, OnOk, MatchOption};
ghost use Rattle.pd_tree.specs.Kinds.{is_root, root_name_of};
ghost use Rattle.pd_tree.specs.Linked as definition;
ghost use Rattle.pd_tree.specs.Kept.{items_in};

use pd_tree::{Addition, Kind, Tree};
use pd_values::Text;
use std::alloc::{AllocError, Global};

/// The items of a program: the name of each, and beside it the number of its root, if it has one.
#[derive(Drop)]
pub struct Listed {
    pub names: Vec<Text>,
    pub roots: Vec<Option<u32>>,
}

/// The items of these nodes, at most 65,536: `println`, and then each function, procedure and main block.
pub fn list_items(alloc: Global, all: &[Addition]) -> Result<Listed, AllocError>
    requires few { length all.now ≤ 65536 }
    ensures items { IfOk result (λ x. items_in x.names.items x.roots.items ≡ definition.items_of all.now) }
    ensures beside { IfOk result (λ x. length x.roots.items ≡ length x.names.items) }
{
    let mut names = vec![in alloc; Text::of("println".to_string(alloc)?)]?;
    let mut roots = vec![in alloc; None]?;
    for (n, addition) in all.iter().enumerate() {
        if let Some(name) = root_name(&addition.kind) {
            names.push(name.copy()?)?;
            roots.push(Some(n as u32))?;
        }
    }
    Ok(Listed { names, roots })
}

/// The name of a function or a procedure, and `None` for any other node.
fn root_name(kind: &Kind) -> Option<&Text>
    ensures { MatchOption result (is_root kind.now ≡ false)
        (λ name. (is_root kind.now ≡ true) × (name.now ≡ root_name_of kind.now)) }
{
    match kind {
        Kind::SlFunction { name, .. } | Kind::PlProcedure { name, .. } => Some(name),
        _ => None,
    }
}

/// The main block of each source, if it has one.
pub fn list_mains(alloc: Global, trees: &[Tree]) -> Result<Vec<Option<u32>>, AllocError>
    requires few { length (definition.joined trees.now) ≤ 65536 }
    ensures { IfOk result (λ v. v.items ≡ definition.mains_from 0 trees.now) }
{
    let mut mains = Vec::new(alloc);
    let mut next = 0;
    for tree in trees {
        let additions = tree.additions();
        mains.push(main_of(next, additions))?;
        next += additions.len() as u32;
    }
    Ok(mains)
}

/// The main block of a source, its first node in PL/0; `next` is the number of the source's first node.
fn main_of(next: u32, additions: &[Addition]) -> Option<u32>
    ensures { result ≡ definition.main_of next additions.now }
{
    match additions {
        [first, ..] => match first.kind {
            Kind::PlProcedure { .. } => Some(next),
            _ => None,
        },
        [] => None,
    }
}
