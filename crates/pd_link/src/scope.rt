//! The variables that are seen, by the changes that lead from node to node.
ghost use Rattle.std.specs.Prelude.{◌≡◌, ◌≤◌, List, length, IfOk};
ghost use Rattle.pd_tree.specs.declared.addition.Addition.{Addition};
ghost use Rattle.pd_tree.specs.Linked as definition;
ghost use Rattle.pd_tree.specs.Kept as kept;
ghost use Rattle.pd_link.specs.Walks as walks;

use pd_tree::{Change, Edge, Kind};
use std::alloc::AllocError;

/// The number of the list that is seen behind the first byte of node `n`, which is of this kind, where list `seen` is
/// seen before it.
pub fn seen_inside(
    kind: &Kind,
    changes: &mut Vec<Change>,
    n: u32,
    seen: usize,
) -> Result<usize, AllocError>
    requires { seen ≤ length changes.old.items }
    ensures { (all : List Addition) → kind.now ≡ definition.kind_at all n → IfOk result (λ s.
        walks.Sees all changes.old.items changes.new.items s
        (definition.seen_inside kind.now (walks.constants_at all n) (kept.list_at all changes.old.items seen))) }
{
    match kind {
        Kind::SlFunction { .. } | Kind::PlProcedure { .. } => add(changes, Edge::First, n, seen),
        _ => Ok(seen),
    }
}

/// The number of the list that is seen behind the last byte of node `n`, which is of this kind, where list `outside`
/// was seen at its first and `seen` behind its last part.
pub fn seen_behind(
    kind: &Kind,
    changes: &mut Vec<Change>,
    n: u32,
    outside: usize,
    seen: usize,
) -> Result<usize, AllocError>
    requires outside { outside ≤ length changes.old.items }
    requires seen { seen ≤ length changes.old.items }
    ensures { (all : List Addition) → kind.now ≡ definition.kind_at all n → IfOk result (λ s.
        walks.Sees all changes.old.items changes.new.items s
        (definition.seen_behind kind.now (walks.meaning_at all n)
        (kept.list_at all changes.old.items outside) (kept.list_at all changes.old.items seen))) }
{
    match kind {
        Kind::SlFunction { .. } | Kind::SlBlock => Ok(outside),
        Kind::SlAssign(_) => add(changes, Edge::Last, n, seen),
        Kind::PlProcedure { .. } => add(changes, Edge::Last, n, outside),
        _ => Ok(seen),
    }
}

/// Adds a change of the list `before` and says which number the list has that it makes.
fn add(changes: &mut Vec<Change>, edge: Edge, node: u32, before: usize) -> Result<usize, AllocError>
    requires { before ≤ length changes.old.items }
    ensures { (all : List Addition) → IfOk result (λ s. walks.Sees all changes.old.items changes.new.items s
        (kept.changed all (record { edge = edge; node = node; before = before })
        (kept.list_at all changes.old.items before))) }
{
    changes.push(Change { edge, node, before })?;
    Ok(changes.len())
}
