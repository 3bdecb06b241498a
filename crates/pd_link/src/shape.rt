//! The parts of each node, and how many variables each function has.
ghost use Rattle.std.specs.Prelude.{◌≡◌, ◌+◌, ◌-◌, ◌*◌, ◌<◌, ◌≤◌, ◌^◌, ◌++◌, length, take, drop, reverse, vec_len, IfOk, OnOk};
ghost use Rattle.pd_tree.specs.Linked as definition;
ghost use Rattle.pd_link.specs.Linking.{ShapesFrom};

use pd_tree::{Addition, Kind, Meaning, Span};
use pd_values::NodeId;
use std::alloc::{AllocError, Global};

/// The parts of a node, a stretch of a program's parts, and how many slots the assignments after it use.
#[derive(Clone, Copy, Drop)]
pub struct Shape {
    pub parts: Span,
    pub assigned: u32,
}

/// The parts of all nodes, and for each node, from the last to the first, where its own are.
#[derive(Drop)]
pub struct Shapes {
    pub parts: Vec<NodeId>,
    pub shapes: Vec<Shape>,
}

/// The shapes of these nodes, at most 65,536.
pub fn shapes_of(alloc: Global, all: &[Addition]) -> Result<Shapes, AllocError>
    requires complete { definition.AllComplete all.now }
    requires few { length all.now ≤ 65536 }
    ensures { IfOk result (λ s. ShapesFrom 0 all.now s.parts.items s.shapes.items) }
{
    let mut parts = Vec::new(alloc);
    let mut shapes = Vec::new(alloc);
    let mut tops = Vec::new(alloc);
    let mut assigned = 0;
    let mut n = all.len();
    while n > 0 {
        n -= 1;
        let addition = &all[n];
        let from = parts.len();
        take_tops(&mut tops, &mut parts, addition.children)?;
        tops.push(NodeId(n as u32))?;
        let span = Span {
            from,
            len: addition.children as usize,
        };
        shapes.push(Shape {
            parts: span,
            assigned,
        })?;
        assigned = more_slots(&addition.kind, addition.meaning, assigned);
    }
    Ok(Shapes { parts, shapes })
}

/// Moves so many nodes from the end of one list, the last one first, to the end of the other.
fn take_tops(tops: &mut Vec<NodeId>, parts: &mut Vec<NodeId>, count: u32) -> Result<(), AllocError>
    requires { count ≤ vec_len tops.old }
    ensures rest { OnOk result (reverse tops.new.items ≡ drop count (reverse tops.old.items)) }
    ensures moved { OnOk result (parts.new.items ≡ parts.old.items ++ take count (reverse tops.old.items)) }
{
    for _ in 0..count {
        let Some(top) = tops.pop() else {
            unreachable!();
        };
        parts.push(top)?;
    }
    Ok(())
}

/// How many slots are used from a node on, where so many are used after it.
fn more_slots(kind: &Kind, meaning: Meaning, later: u32) -> u32
    requires { definition.slots_up_to meaning < 2 ^ 32 }
    ensures { result ≡ definition.more_slots kind.now meaning later }
{
    match kind {
        Kind::SlFunction { .. } => 0,
        Kind::SlAssign(_) => match meaning {
            Meaning::Local { slot, .. } => later.max(slot + 1),
            _ => later,
        },
        _ => later,
    }
}
