//! The variables that are seen, made from the changes that lead to them.
ghost use Rattle.std.specs.Prelude.{◌≡◌, ◌+◌, ◌<◌, ◌≤◌, ◌^◌, [], ◌++◌, List, length, IfOk, OnOk};
ghost use Rattle.pd_tree.specs.declared.addition.Addition.{Addition};
ghost use Rattle.pd_tree.specs.Linked as definition;
ghost use Rattle.pd_tree.specs.Kept as kept;
ghost use Rattle.pd_tree.specs.Seen as words;

use crate::addition::Addition;
use crate::change::{Change, Edge};
use crate::kind::{Kind, Meaning, Visible};
use pd_values::{NodeId, Text};
use std::alloc::{AllocError, Global};
use std::collections::BTreeMap;

/// The variables of the list with this number.
pub fn list_of(
    alloc: Global,
    additions: &[Addition],
    changes: &[Change],
    number: usize,
) -> Result<Vec<Visible>, AllocError>
    requires within { number ≤ length changes.now }
    requires before { kept.AllBefore 0 changes.now }
    requires few { length changes.now < 2 ^ 32 }
    requires names { kept.AllCounted additions.now }
    ensures { IfOk result (λ v. v.items ≡ kept.list_at additions.now changes.now number) }
{
    let mut chain = chain_to(alloc, changes, number)?;
    let mut seen = Vec::new(alloc);
    while let Some(change) = chain.pop() {
        seen = apply(additions, change, seen)?;
    }
    Ok(seen)
}

/// The changes that lead to the list with this number, from the last back to the first.
fn chain_to(alloc: Global, changes: &[Change], number: usize) -> Result<Vec<Change>, AllocError>
    requires within { number ≤ length changes.now }
    requires before { kept.AllBefore 0 changes.now }
    ensures chain { (additions : List Addition) → IfOk result (λ v. words.applied additions v.items []
        ≡ kept.list_at additions changes.now number) }
    ensures few { IfOk result (λ v. length v.items ≤ number) }
{
    let mut chain = Vec::new(alloc);
    let mut at = number;
    while at > 0 {
        let change = changes[at - 1];
        chain.push(change)?;
        at = change.before;
    }
    Ok(chain)
}

/// What a change makes of the variables that are seen.
fn apply(
    additions: &[Addition],
    change: Change,
    seen: Vec<Visible>,
) -> Result<Vec<Visible>, AllocError>
    requires near { words.AllUp 4294967294 seen.items }
    requires names { kept.AllCounted additions.now }
    ensures { IfOk result (λ v. v.items ≡ kept.changed additions.now change seen.items) }
{
    let n = change.node as usize;
    if n >= additions.len() {
        return Ok(seen);
    }
    match change.edge {
        Edge::First => seen_inside(&additions[n], seen),
        Edge::Last => seen_behind(&additions[n], seen),
    }
}

/// What is seen behind a node's first byte, where this is seen before it.
fn seen_inside(addition: &Addition, seen: Vec<Visible>) -> Result<Vec<Visible>, AllocError>
    requires near { words.AllUp 4294967294 seen.items }
    requires names { length (definition.names_in addition.now.kind) < 2 ^ 32 }
    ensures { IfOk result (λ v. v.items
        ≡ definition.seen_inside addition.now.kind addition.now.constants seen.items) }
{
    let alloc = *seen.allocator();
    match &addition.kind {
        Kind::SlFunction { parameters, .. } => parameters_seen(alloc, parameters.as_slice()),
        Kind::PlProcedure { name, variables } => {
            let own = variables.as_slice();
            let others = without_all(without(seen, name)?, own)?;
            let around = without_all(others, addition.constants.as_slice())?;
            let mut inside = declared(alloc, own)?;
            inside.append(&mut from_inside(around)?)?;
            Ok(inside)
        }
        _ => Ok(seen),
    }
}

/// What is seen behind a node's last byte: behind an assignment, where this is seen before its last byte, and behind a
/// procedure, where this is seen before its first.
fn seen_behind(addition: &Addition, seen: Vec<Visible>) -> Result<Vec<Visible>, AllocError>
    ensures { IfOk result (λ v. v.items
        ≡ definition.seen_behind addition.now.kind addition.now.meaning seen.items seen.items) }
{
    match &addition.kind {
        Kind::SlAssign(name) => match addition.meaning {
            Meaning::Local { slot, .. } => with_assigned(seen, name, slot),
            _ => Ok(seen),
        },
        Kind::PlProcedure { name, .. } => without(seen, name),
        _ => Ok(seen),
    }
}

/// What a node with these parts sees: a procedure's root doesn't see what its inner procedures hide.
pub fn seen_by(
    all: &[Addition],
    parts: &[NodeId],
    kind: &Kind,
    seen: Vec<Visible>,
) -> Result<Vec<Visible>, AllocError>
    ensures { IfOk result (λ v. v.items
        ≡ kept.seen_by kind.now (definition.procedure_names all.now parts.now) seen.items) }
{
    match kind {
        Kind::PlProcedure { .. } => without_procedures(all, parts, seen),
        _ => Ok(seen),
    }
}

/// Without the variables that the procedures among these parts hide.
fn without_procedures(
    all: &[Addition],
    parts: &[NodeId],
    mut seen: Vec<Visible>,
) -> Result<Vec<Visible>, AllocError>
    ensures { IfOk result (λ v. v.items
        ≡ definition.without_all (definition.procedure_names all.now parts.now) seen.items) }
{
    for part in parts {
        let n = part.0 as usize;
        if n < all.len() {
            seen = without_part(&all[n].kind, seen)?;
        }
    }
    Ok(seen)
}

/// Without the variables that a node hides if it is a procedure.
fn without_part(kind: &Kind, seen: Vec<Visible>) -> Result<Vec<Visible>, AllocError>
    ensures { IfOk result (λ v. v.items ≡ words.without_part kind.now seen.items) }
{
    match kind {
        Kind::PlProcedure { name, .. } => without(seen, name),
        _ => Ok(seen),
    }
}

/// Without the variables of a name.
fn without(seen: Vec<Visible>, name: &Text) -> Result<Vec<Visible>, AllocError>
    ensures { IfOk result (λ v. v.items ≡ definition.without name.now seen.items) }
{
    if !sees_name(seen.as_slice(), name) {
        return Ok(seen);
    }
    let mut rest = Vec::new(*seen.allocator());
    for v in seen {
        if v.name.as_str() != name.as_str() {
            rest.push(v)?;
        }
    }
    Ok(rest)
}

/// Without the variables of these names.
fn without_all(mut seen: Vec<Visible>, names: &[Text]) -> Result<Vec<Visible>, AllocError>
    ensures { IfOk result (λ v. v.items ≡ definition.without_all names.now seen.items) }
{
    for name in names {
        seen = without(seen, name)?;
    }
    Ok(seen)
}

/// With the variable that an assignment sets, in the order of slots.
fn with_assigned(mut seen: Vec<Visible>, name: &Text, slot: u32) -> Result<Vec<Visible>, AllocError>
    ensures { IfOk result (λ v. v.items
        ≡ definition.inserted (record { name = name.now; up = 0; slot = slot }) seen.items) }
{
    let at = slots_before(seen.as_slice(), slot);
    if at < seen.len() && seen[at].slot == slot {
        return Ok(seen);
    }
    let variable = Visible {
        name: name.copy()?,
        up: 0,
        slot,
    };
    seen.insert(at, variable)?;
    Ok(seen)
}

/// How many variables at the front have slots below this one.
fn slots_before(seen: &[Visible], slot: u32) -> usize
    ensures count { result ≡ words.slots_before slot seen.now }
    ensures within { result ≤ length seen.now }
{
    let mut at = 0;
    while at < seen.len() && seen[at].slot < slot {
        at += 1;
    }
    at
}

/// Whether a variable of this name is among these.
fn sees_name(seen: &[Visible], name: &Text) -> bool
    ensures { result ≡ definition.sees_name name.now seen.now }
{
    for v in seen {
        if v.name.as_str() == name.as_str() {
            return true;
        }
    }
    false
}

/// The variables of a function at its begin: its parameters, each name once.
pub fn parameters_seen(alloc: Global, parameters: &[Text]) -> Result<Vec<Visible>, AllocError>
    requires { length parameters.now < 2 ^ 32 }
    ensures { IfOk result (λ v. v.items ≡ definition.with_parameters [] parameters.now) }
{
    let mut known = BTreeMap::new(alloc);
    let mut seen = Vec::new(alloc);
    for x in parameters {
        let name = x.as_str();
        if !known.contains_key(name) {
            known.insert(name, ())?;
            seen.push(Visible {
                name: x.copy()?,
                up: 0,
                slot: seen.len() as u32,
            })?;
        }
    }
    Ok(seen)
}

/// The variables that a block declares.
fn declared(alloc: Global, names: &[Text]) -> Result<Vec<Visible>, AllocError>
    requires { length names.now < 2 ^ 32 }
    ensures { IfOk result (λ v. v.items ≡ definition.declared 0 names.now) }
{
    let mut seen = Vec::new(alloc);
    for (slot, x) in names.iter().enumerate() {
        seen.push(Visible {
            name: x.copy()?,
            up: 0,
            slot: slot as u32,
        })?;
    }
    Ok(seen)
}

/// These variables as they are seen from one block further in.
fn from_inside(around: Vec<Visible>) -> Result<Vec<Visible>, AllocError>
    requires { words.AllUp 4294967294 around.items }
    ensures { IfOk result (λ v. v.items ≡ definition.from_inside around.items) }
{
    let mut seen = Vec::new(*around.allocator());
    for v in around {
        seen.push(Visible {
            name: v.name,
            up: v.up + 1,
            slot: v.slot,
        })?;
    }
    Ok(seen)
}
