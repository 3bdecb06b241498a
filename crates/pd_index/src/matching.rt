//! Which nodes each binding of a plan is about.
ghost use Rattle.std.specs.Prelude.{◌≡◌, ◌<◌, length, IfOk};
ghost use Rattle.std.specs.List.{All, filter};
ghost use Rattle.pd_break.specs.Resolving.{is_statement};
ghost use Rattle.pd_index.specs.Kept.{IsIndexOf, line_of_first};
ghost use Rattle.pd_filter.specs.Matching.{is_about, row_of, stop_line, table_of, IsOver};

use crate::candidates::candidates;
use crate::index::NodeIndex;
use pd_break::{Resolved, is_stop};
use pd_filter::{concerns, is_drawn_always};
use pd_plan::{BindingSpec, MatchTable, Plan};
use pd_tree::Program;
use pd_values::{Items, NodeId};
use std::alloc::{AllocError, Global};

// For so many bindings going over all nodes takes no longer than making an index.
const FEW: usize = 8;

/// The row of nodes of each binding of a plan, rising, and whether the binding is always drawn there, as one without a
/// condition is. It indexes the program, and then looks for each binding at the fewest nodes that a list of the index
/// has for it. The only error is `AllocError`, where memory runs out.
pub fn matches(alloc: Global, plan: &Plan, program: &Program) -> Result<MatchTable, AllocError>
    ensures table { IfOk result (λ table. table ≡ table_of plan.now program.now) }
    ensures over { IfOk result (IsOver (length program.now.nodes)) }
{
    if plan.bindings.as_slice().len() <= FEW {
        return pd_filter::matches(alloc, plan, program);
    }
    let index = NodeIndex::build(alloc, program)?;
    let mut rows = Vec::new(alloc);
    let mut always = Vec::new(alloc);
    for binding in plan.bindings.as_slice() {
        rows.push(row(alloc, binding, &index, program)?)?;
        always.push(is_drawn_always(binding))?;
    }
    Ok(MatchTable {
        rows: Items::of(rows),
        always: Items::of(always),
    })
}

// The nodes that a binding is about, rising.
fn row(
    alloc: Global,
    binding: &BindingSpec,
    index: &NodeIndex,
    program: &Program,
) -> Result<Items<NodeId>, AllocError>
    requires { IsIndexOf program.now index.now }
    ensures { IfOk result (λ row. row ≡ row_of program.now binding.now) }
{
    let line = line_of(binding, index, program);
    match candidates(alloc, binding, line, index, program)? {
        Some(numbers) => among(alloc, binding, line, program, numbers.as_slice()),
        None => among_all(alloc, binding, line, program),
    }
}

// Those of the nodes of these numbers that a binding is about.
fn among(
    alloc: Global,
    binding: &BindingSpec,
    line: Resolved,
    program: &Program,
    numbers: &[u32],
) -> Result<Items<NodeId>, AllocError>
    requires of_the_program { All (λ n. n < length program.now.nodes) numbers.now }
    requires of_the_binding { line ≡ stop_line program.now binding.now }
    ensures { IfOk result (λ row. row ≡ filter (is_about program.now binding.now) numbers.now) }
{
    let mut row = Vec::new(alloc);
    for n in numbers {
        let node = NodeId(*n);
        if concerns(binding, line, program, node) {
            row.push(node)?;
        }
    }
    Ok(Items::of(row))
}

// Those of all nodes that a binding is about.
fn among_all(
    alloc: Global,
    binding: &BindingSpec,
    line: Resolved,
    program: &Program,
) -> Result<Items<NodeId>, AllocError>
    requires { line ≡ stop_line program.now binding.now }
    ensures { IfOk result (λ row. row ≡ row_of program.now binding.now) }
{
    let mut row = Vec::new(alloc);
    for n in 0..program.nodes() {
        let node = NodeId(n);
        if concerns(binding, line, program, node) {
            row.push(node)?;
        }
    }
    Ok(Items::of(row))
}

// The line to which a breakpoint's own is resolved: that of the first Statement node from its line on, line behind line.
fn line_of(binding: &BindingSpec, index: &NodeIndex, program: &Program) -> Resolved
    requires { IsIndexOf program.now index.now }
    ensures { result ≡ stop_line program.now binding.now }
{
    match binding {
        BindingSpec::Break(spec) => {
            let nodes = index.lines.stretch(spec.source, spec.line, u32::MAX);
            first_stop(nodes, program)
        }
        BindingSpec::Observe(_) | BindingSpec::Pause { .. } => Resolved::Unresolved,
    }
}

// The line of the first of these nodes that is a Statement.
fn first_stop(nodes: &[NodeId], program: &Program) -> Resolved
    requires { All (λ n. n < length program.now.nodes) nodes.now }
    ensures { result ≡ line_of_first program.now (filter (is_statement program.now) nodes.now) }
{
    for n in nodes {
        if is_stop(program, *n) {
            return Resolved::Line(program.line(*n));
        }
    }
    Resolved::Unresolved
}
