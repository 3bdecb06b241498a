//! The rows of the bindings.
ghost use Rattle.std.specs.Prelude.{◌≡◌, length, IfOk};
ghost use Rattle.std.specs.List.{All};
ghost use Rattle.seat_threads.specs.Rows.{IsRow};

use crate::choices::BINDINGS;
use pd_plan::MatchTable;
use pd_values::{Items, NodeId};
use std::alloc::{AllocError, Global};

/// The row of a binding: one of the first eight nodes, and one of the others.
fn row(alloc: Global, b: u32) -> Result<Items<NodeId>, AllocError>
    ensures { IfOk result (λ r. IsRow r) }
{
    let mut nodes = Items::of(Vec::new(alloc));
    nodes.push(NodeId(b % 8))?;
    nodes.push(NodeId(8 + b / 8 % 8))?;
    Ok(nodes)
}

/// The rows of all bindings, each of which is always drawn.
pub fn table(alloc: Global) -> Result<MatchTable, AllocError>
    ensures length { IfOk result (λ t. length t.rows ≡ 96) }
    ensures rows { IfOk result (λ t. All (λ r. IsRow r) t.rows) }
{
    let mut rows = Items::of(Vec::new(alloc));
    let mut always = Items::of(Vec::new(alloc));
    for b in 0..BINDINGS {
        rows.push(row(alloc, b)?)?;
        always.push(true)?;
    }
    Ok(MatchTable { rows, always })
}
