//! Conditions whose names are resolved at a node, to be tested there.
ghost use Rattle.std.specs.Prelude.{◌≡◌, ◌<◌, length, IfOk};
ghost use Rattle.pd_condition.specs.Operands.{place_in};
ghost use Rattle.pd_condition.specs.Resolving.{IsResolved, IsResolvedAt};

use pd_plan::{Condition, Op};
use pd_tree::{Program, Visible};
use pd_values::{NodeId, Text};
use sqlite_items::Boxed;
use std::alloc::{AllocError, Global};

/// A condition at a node: each name stands for the place of a variable that a frame sees there.
#[derive(Drop)]
pub enum Resolved {
    Number(i64),
    Text(Text),
    /// The variable in this slot of the block that stands `up` blocks outward.
    Variable { up: u32, slot: u32 },
    /// A name that isn't seen there.
    Unseen,
    Binary(Op, Boxed<Resolved>, Boxed<Resolved>),
}

/// The place of the variable of this name, the first where there are several.
fn place_of(seen: &[Visible], name: &Text) -> Resolved
    ensures { result ≡ place_in seen.now name.now }
{
    'seen: for v in seen {
        if v.name.as_str() == name.as_str() {
            return Resolved::Variable {
                up: v.up,
                slot: v.slot,
            };
        }
    }
    Resolved::Unseen
}

/// An operator between two conditions.
fn between(alloc: Global, op: Op, left: Resolved, right: Resolved) -> Result<Resolved, AllocError>
    ensures { IfOk result (λ r. r ≡ Resolved.Binary op left right) }
{
    Ok(Resolved::Binary(op, Boxed::new(alloc, left)?, Boxed::new(alloc, right)?))
}

/// The condition where these variables are seen.

fn resolve_among(
    alloc: Global,
    condition: &Condition,
    seen: &[Visible],
) -> Result<Resolved, AllocError>
    ensures { IfOk result (IsResolved seen.now condition.now) }
{
    match condition {
        Condition::Number(z) => Ok(Resolved::Number(*z)),
        Condition::Text(t) => Ok(Resolved::Text(t.copy()?)),
        Condition::Name(name) => Ok(place_of(seen, name)),
        Condition::Binary(op, left, right) => {
            let left = resolve_among(alloc, left.get(), seen)?;
            let right = resolve_among(alloc, right.get(), seen)?;
            between(alloc, *op, left, right)
        }
    }
}

/// The condition at a node of a program, made once for all its tests there. `Err` where memory runs out.
#[tactic(auto, using(crate::proofs::Resolving::resolved_there))]
pub fn resolve(
    alloc: Global,
    condition: &Condition,
    program: &Program,
    node: NodeId,
) -> Result<Resolved, AllocError>
    requires { node < length program.now.nodes }
    ensures { IfOk result (IsResolvedAt program.now node condition.now) }
{
    let seen = program.sees(alloc, node)?;
    resolve_among(alloc, condition, seen.as_slice())
}
