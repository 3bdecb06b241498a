//! Nodes after their parts are put before them.
#![tactic(auto)]

ghost use Rattle.std.specs.Prelude.{◌≡◌, reverse, OnOk, IfOk};
ghost use Rattle.pd_turn.specs.Turned.{Roses, posts, pres, part_done};

use std::alloc::{AllocError, Global};

/// A node of a tree, with the number of its parts.
#[derive(Drop)]
pub struct Node<T: Drop> {
    pub what: T,
    pub parts: u32,
}

/// A node of which some parts haven't been done.
#[derive(Drop)]
struct Pending<T: Drop> {
    node: Node<T>,
    missing: u32,
}

/// A part is done, and so is each node whose last missing part was done by that.
fn part_done<T: Drop>(
    unfinished: &mut Vec<Pending<T>>,
    done: &mut Vec<Node<T>>,
) -> Result<(), AllocError>
    ensures { OnOk result ((reverse unfinished.new.items, done.new.items) ≡ part_done (reverse unfinished.old.items) done.old.items) }
{
    while let Some(top) = unfinished.pop() {
        if top.missing > 1 {
            unfinished.push(Pending {
                node: top.node,
                missing: top.missing - 1,
            })?;
            return Ok(());
        }
        done.push(top.node)?;
    }
    Ok(())
}

/// The nodes of some trees before their parts, from the nodes after their parts.
/// Each node is moved once, and nothing recurses.
pub fn before<T: Drop>(alloc: Global, nodes: Vec<Node<T>>) -> Result<Vec<Node<T>>, AllocError>
    ensures { IfOk result (λ out. (ts : Roses T) → nodes.items ≡ posts ts → out.items ≡ pres ts) }
{
    let mut nodes = nodes;
    let mut unfinished = Vec::new(alloc);
    let mut done = Vec::new(alloc);
    while let Some(node) = nodes.pop() {
        if node.parts == 0 {
            done.push(node)?;
            part_done(&mut unfinished, &mut done)?;
        } else {
            let missing = node.parts;
            unfinished.push(Pending { node, missing })?;
        }
    }
    done.reverse();
    Ok(done)
}
