//! The coverage of a report.
ghost use Rattle.std.specs.Prelude.{◌≡◌, ◌<◌, ◌^◌, [], true, Some, length, slice_get, slice_index_or, IfOk};
ghost use Rattle.pd_plan.specs.declared.plan.BindingSpec.TheVariants.{Observe};
ghost use Rattle.pd_run.specs.Run.{IsRun};
ghost use Rattle.pd_coverage.specs.Report.{watches, log_in, IsCoverage};
ghost use Rattle.pd_coverage.specs.Table.{covered_with, covered_from};

use crate::statements::statements;
use crate::table::{blank, is_marked, mark_entered};
use crate::{Coverage, Covered};
use pd_log::Entry;
use pd_plan::{BindingSpec, Filter, Plan};
use pd_run::Report;
use pd_suspend::ContextRecord;
use pd_tree::Program;
use pd_values::{Items, NodeId};
use std::alloc::{AllocError, Global};

/// Whether a plan has an observer of this number. It takes no memory.
pub fn watches(plan: &Plan, binding: u32) -> bool
    ensures { result ≡ watches plan.now binding }
{
    matches!(
        plan.bindings.get(binding as usize),
        Some(BindingSpec::Observe(_))
    )
}

// The filter of an observer.
fn filter_of(plan: &Plan, binding: u32) -> &Filter
    requires { watches plan.now binding ≡ true }
    ensures { slice_get plan.now.bindings binding ≡ Some (Observe result.now) }
{
    match plan.bindings.get(binding as usize) {
        Some(BindingSpec::Observe(filter)) => filter,
        _ => unreachable!(),
    }
}

// The log of a binding in a context.
fn log_in(context: &ContextRecord, binding: u32) -> &[Entry]
    ensures { result.now ≡ log_in binding context.now }
{
    match context.logs.get(binding as usize) {
        Some(log) => log.as_slice(),
        None => &[],
    }
}

// Of a source, its statements, and those of them that are marked.
fn covered_source(
    alloc: Global,
    source: u32,
    nodes: &[NodeId],
    marked: &Items<bool>,
) -> Result<Covered, AllocError>
    ensures { IfOk result (λ x. x ≡ covered_with marked.now source nodes.now) }
{
    let mut all = Vec::new(alloc);
    let mut hit = Vec::new(alloc);
    for n in nodes {
        all.push(*n)?;
        if is_marked(marked, n.0 as usize) {
            hit.push(*n)?;
        }
    }
    Ok(Covered {
        source,
        nodes: Items::of(all),
        hit: Items::of(hit),
    })
}

// The same of each source.
fn sources_covered(
    alloc: Global,
    statements: &[Items<NodeId>],
    marked: &Items<bool>,
) -> Result<Items<Covered>, AllocError>
    requires few { length statements.now < 2 ^ 32 }
    ensures { IfOk result (λ xs. xs ≡ covered_from marked.now 0 statements.now) }
{
    let mut sources = Vec::new(alloc);
    for (source, nodes) in statements.iter().enumerate() {
        sources.push(covered_source(alloc, source as u32, nodes.as_slice(), marked)?)?;
    }
    Ok(Items::of(sources))
}

/// The coverage of a report by the logs of an observer: for each context and source, and for each source over all
/// contexts, the statements that the observer is about, and those that it saw entered. Where the observer is attached
/// before the run and nothing disposes it or switches it off, these are exactly the ones that the context entered.
///
/// Conditions: the report is one of the plan's run, the plan has an observer of this number, and fewer than 2^32 sources.
/// It looks at each node of the program and at each entry of the logs once, and then at each statement once for each
/// context. The only error is `AllocError`, where memory runs out.
pub fn cover(
    alloc: Global,
    report: &Report,
    plan: &Plan,
    program: &Program,
    binding: u32,
) -> Result<Coverage, AllocError>
    requires run { IsRun plan.now program.now report.now }
    requires observer { watches plan.now binding ≡ true }
    requires few { length plan.now.sources < 2 ^ 32 }
    ensures { IfOk result (IsCoverage plan.now program.now report.now binding) }
{
    let nodes = program.nodes() as usize;
    let sources = plan.sources.as_slice().len();
    let by_source = statements(alloc, filter_of(plan, binding), program, sources)?;
    let mut all = blank(alloc, nodes)?;
    let mut contexts = Vec::new(alloc);
    for context in report.contexts.as_slice() {
        let mut own = blank(alloc, nodes)?;
        mark_entered(log_in(context, binding), &mut own, &mut all);
        contexts.push(sources_covered(alloc, by_source.as_slice(), &own)?)?;
    }
    Ok(Coverage {
        contexts: Items::of(contexts),
        all: sources_covered(alloc, by_source.as_slice(), &all)?,
    })
}
