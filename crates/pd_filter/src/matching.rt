//! Which nodes each binding of a plan is about.
ghost use Rattle.std.specs.Prelude.{◌≡◌, ◌<◌, length, IfOk};
ghost use Rattle.pd_filter.specs.Matching.{is_about, row_of, is_always_drawn, stop_line, table_of, IsOver};

use crate::satisfying::sat;
use pd_break::{Resolved, is_on, is_stop, resolve};
use pd_plan::{BindingSpec, MatchTable, Plan};
use pd_tree::Program;
use pd_values::{Items, NodeId};
use std::alloc::{AllocError, Global};

/// The row of nodes of each binding of a plan, rising, and whether the binding is always drawn there, as one without a
/// condition is. It looks at each node once for each binding, twice for a breakpoint. The only error is `AllocError`,
/// where memory runs out.
pub fn matches(alloc: Global, plan: &Plan, program: &Program) -> Result<MatchTable, AllocError>
    ensures table { IfOk result (λ table. table ≡ table_of plan.now program.now) }
    ensures over { IfOk result (IsOver (length program.now.nodes)) }
{
    let mut rows = Vec::new(alloc);
    let mut always = Vec::new(alloc);
    for binding in plan.bindings.as_slice() {
        rows.push(row(alloc, binding, program)?)?;
        always.push(is_drawn_always(binding))?;
    }
    Ok(MatchTable {
        rows: Items::of(rows),
        always: Items::of(always),
    })
}

// The nodes that a binding is about, rising.
fn row(alloc: Global, binding: &BindingSpec, program: &Program) -> Result<Items<NodeId>, AllocError>
    ensures { IfOk result (λ row. row ≡ row_of program.now binding.now) }
{
    let line = line_of(binding, program);
    let mut row = Vec::new(alloc);
    for n in 0..program.nodes() {
        let node = NodeId(n);
        if concerns(binding, line, program, node) {
            row.push(node)?;
        }
    }
    Ok(Items::of(row))
}

// The line to which a breakpoint's own is resolved.
fn line_of(binding: &BindingSpec, program: &Program) -> Resolved
    ensures { result ≡ stop_line program.now binding.now }
{
    match binding {
        BindingSpec::Break(spec) => resolve(program, spec.source, spec.line),
        BindingSpec::Observe(_) | BindingSpec::Pause { .. } => Resolved::Unresolved,
    }
}

/// Whether a binding is about a node, where it is known to which line a breakpoint's own is resolved. It takes no
/// memory.
pub fn concerns(binding: &BindingSpec, line: Resolved, program: &Program, n: NodeId) -> bool
    requires of_the_program { n < length program.now.nodes }
    requires of_the_binding { line ≡ stop_line program.now binding.now }
    ensures { result ≡ is_about program.now binding.now n }
{
    match binding {
        BindingSpec::Observe(filter) => sat(filter, program, n),
        BindingSpec::Break(spec) => match line {
            Resolved::Line(line) => is_on(program, spec.source, line, n),
            Resolved::Unresolved => false,
        },
        BindingSpec::Pause { .. } => is_stop(program, n),
    }
}

/// Whether a binding is drawn at each of its nodes, as all are but breakpoints with a condition. It takes no memory.
pub fn is_drawn_always(binding: &BindingSpec) -> bool
    ensures { result ≡ is_always_drawn binding.now }
{
    match binding {
        BindingSpec::Break(spec) => spec.condition.is_none(),
        BindingSpec::Observe(_) | BindingSpec::Pause { .. } => true,
    }
}
