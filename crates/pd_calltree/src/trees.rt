//! The call tree of a report.
ghost use Rattle.std.specs.Prelude.{◌≡◌, true, IfOk};
ghost use Rattle.pd_nesting.specs.Nesting.{AreRooted};
ghost use Rattle.pd_run.specs.Run.{IsRun};
ghost use Rattle.pd_calltree.specs.Suits.{is_for_tree};
ghost use Rattle.pd_calltree.specs.Results.{log_in, AreTrees, AreSummedIn};
ghost use Rattle.pd_calltree.specs.Counting.{AreCountable, AreTallied};

use pd_log::Entry;
use pd_paths::{PathCount, counted};
use pd_plan::Plan;
use pd_run::Report;
use pd_suspend::ContextRecord;
use pd_tree::Program;
use pd_values::Items;
use std::alloc::{AllocError, Global};

/// For each context its paths, in the order of their lists of node numbers.
#[derive(Drop)]
pub struct CallTree {
    pub contexts: Items<Items<PathCount>>,
}

// The log of a binding in a context.
fn log_in(context: &ContextRecord, binding: usize) -> &[Entry]
    ensures { result.now ≡ log_in binding context.now }
{
    match context.logs.get(binding) {
        Some(log) => log.as_slice(),
        None => &[],
    }
}

fn trees_of(
    alloc: Global,
    contexts: &[ContextRecord],
    binding: usize,
) -> Result<Items<Items<PathCount>>, AllocError>
    requires { AreCountable binding contexts.now }
    ensures { IfOk result (AreTallied binding contexts.now) }
{
    let mut trees = Vec::new(alloc);
    for context in contexts {
        let log = log_in(context, binding);
        trees.push(counted(alloc, log, context.events)?)?;
    }
    Ok(Items::of(trees))
}

/// The call tree of each context of a run, from the log of a binding: each path of functions and procedures with the number
/// of its activations and of the events that belong to them, out of all events of the context.
///
/// Conditions: the report is that of the plan's run, and a call tree can be made of the binding. It takes time by the
/// length of the logs and of the paths together. Where memory runs out it answers `AllocError`.
pub fn tree(
    alloc: Global,
    report: &Report,
    plan: &Plan,
    program: &Program,
    binding: u32,
) -> Result<CallTree, AllocError>
    requires run { IsRun plan.now program.now report.now }
    requires suits { is_for_tree plan.now binding ≡ true }
    ensures trees { IfOk result (λ t. AreTrees plan.now program.now 0 report.now.contexts t.contexts) }
    // where the root of each item has its tag, as in each program that was loaded
    ensures sums { AreRooted program.now → IfOk result (λ t. AreSummedIn plan.now program.now 0 report.now.contexts t.contexts) }
{
    let contexts = trees_of(alloc, report.contexts.as_slice(), binding as usize)?;
    Ok(CallTree { contexts })
}
