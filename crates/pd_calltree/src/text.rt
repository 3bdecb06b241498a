//! The text of a call tree.
ghost use Rattle.std.specs.Prelude.{◌≡◌, ◌++◌, string_bytes, OnOk, IfOk};
ghost use Rattle.pd_calltree.specs.Text.{trees_text, calltree_text};

use crate::trees::CallTree;
use pd_paths::{PathCount, push_tree};
use pd_run::Report;
use pd_suspend::ContextRecord;
use pd_tree::Program;
use pd_values::{Items, Text};
use std::alloc::{AllocError, Global};

fn push_trees(
    text: &mut String,
    program: &Program,
    contexts: &[ContextRecord],
    trees: &[Items<PathCount>],
) -> Result<(), AllocError>
    ensures { OnOk result (string_bytes text.new ≡ string_bytes text.old ++ trees_text program.now 0 contexts.now trees.now) }
{
    let count = contexts.len().min(trees.len());
    for number in 0..count {
        let events = contexts[number].events;
        let tree = &trees[number];
        push_tree(text, program, number, events, tree.as_slice())?;
    }
    Ok(())
}

/// The text of a call tree: for each context a line with the number of its events, and a line for each path.
/// docs/FORMATS.md has the format. Where memory runs out it answers `AllocError`.
pub fn calltree_text(
    alloc: Global,
    tree: &CallTree,
    report: &Report,
    program: &Program,
) -> Result<Text, AllocError>
    ensures { IfOk result (λ text. text ≡ calltree_text program.now report.now tree.now) }
{
    let mut text = String::new(alloc);
    let trees = tree.contexts.as_slice();
    push_trees(&mut text, program, report.contexts.as_slice(), trees)?;
    Ok(Text::of(text))
}
