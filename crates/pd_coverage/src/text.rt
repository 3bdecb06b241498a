//! The text of a coverage.
ghost use Rattle.std.specs.Prelude.{◌≡◌, ◌++◌, string_bytes, flat_map, slice_get, IfOk, OnOk};
ghost use Rattle.std.specs.Fmt.{decimal};
ghost use Rattle.pd_report.specs.Lines.{numbered};
ghost use Rattle.pd_report.specs.Transcript.{source_name};
ghost use Rattle.pd_coverage.specs.Text.{number_text, missed_text, share_text, source_head, source_text, sources_text, coverage_text};

use crate::lines::count_lines;
use crate::{Coverage, Covered};
use pd_plan::Plan;
use pd_tree::Program;
use pd_values::{Items, Text};
use std::alloc::{AllocError, Global};

// Numbers, each behind a space.
fn push_numbers(text: &mut String, numbers: &[usize]) -> Result<(), AllocError>
    ensures { OnOk result (string_bytes text.new ≡ string_bytes text.old ++ flat_map number_text numbers.now) }
{
    for number in numbers {
        write!(text, " {number}")?;
    }
    Ok(())
}

// The lines that aren't covered, where there are any.
fn push_missed(text: &mut String, missed: &[usize]) -> Result<(), AllocError>
    ensures { OnOk result (string_bytes text.new ≡ string_bytes text.old ++ missed_text missed.now) }
{
    if missed.is_empty() {
        return Ok(());
    }
    text.push_str("  missed")?;
    push_numbers(text, missed)?;
    text.push_str("\n")
}

// The name of a source; empty for a number that the plan doesn't have.
fn source_name(plan: &Plan, source: u32) -> &str
    ensures { result.now ≡ source_name (slice_get plan.now.sources source) }
{
    match plan.sources.get(source as usize) {
        Some(spec) => spec.name.as_str(),
        None => "",
    }
}

// So many of so many.
fn push_share(text: &mut String, part: usize, whole: usize) -> Result<(), AllocError>
    ensures { OnOk result (string_bytes text.new ≡ string_bytes text.old ++ share_text part whole) }
{
    write!(text, "{part}/{whole}")
}

// The beginning of a source's line, in the context of this number or in `all`.
fn push_head(text: &mut String, plan: &Plan, who: &str, source: u32) -> Result<(), AllocError>
    ensures { OnOk result (string_bytes text.new ≡ string_bytes text.old ++ source_head plan.now who.now source) }
{
    let name = source_name(plan, source);
    write!(text, "coverage {who} source {source} {name} statements ")
}

// What was hit of a source, in the context of this number or in `all`.
fn push_source(
    text: &mut String,
    alloc: Global,
    plan: &Plan,
    program: &Program,
    who: &str,
    x: &Covered,
) -> Result<(), AllocError>
    ensures { OnOk result (string_bytes text.new ≡ string_bytes text.old ++ source_text plan.now program.now who.now x.now) }
{
    let lines = count_lines(alloc, program, x)?;
    push_head(text, plan, who, x.source)?;
    push_share(text, x.hit.as_slice().len(), x.nodes.as_slice().len())?;
    text.push_str(" lines ")?;
    push_share(text, lines.covered, lines.all)?;
    text.push_str("\n")?;
    push_missed(text, lines.missed.as_slice())?;
    Ok(())
}

fn push_sources(
    text: &mut String,
    alloc: Global,
    plan: &Plan,
    program: &Program,
    who: &str,
    sources: &[Covered],
) -> Result<(), AllocError>
    ensures { OnOk result (string_bytes text.new ≡ string_bytes text.old ++ sources_text plan.now program.now who.now sources.now) }
{
    for x in sources {
        push_source(text, alloc, plan, program, who, x)?;
    }
    Ok(())
}

// The same in the context of this number.
fn push_context(
    text: &mut String,
    alloc: Global,
    plan: &Plan,
    program: &Program,
    number: usize,
    sources: &[Covered],
) -> Result<(), AllocError>
    ensures { OnOk result (string_bytes text.new ≡ string_bytes text.old ++ sources_text plan.now program.now (decimal number) sources.now) }
{
    let who = number.to_string(alloc)?;
    push_sources(text, alloc, plan, program, who.as_str(), sources)
}

fn push_contexts(
    text: &mut String,
    alloc: Global,
    plan: &Plan,
    program: &Program,
    contexts: &[Items<Covered>],
) -> Result<(), AllocError>
    ensures { OnOk result (string_bytes text.new ≡ string_bytes text.old ++ numbered (λ context. sources_text plan.now program.now (decimal context)) 0 contexts.now) }
{
    for (number, sources) in contexts.iter().enumerate() {
        push_context(text, alloc, plan, program, number, sources.as_slice())?;
    }
    Ok(())
}

/// The text of a coverage: for each context and source, and then for each source over all contexts, how many of its
/// statements were hit and how many of the lines on which they start, and the numbers of the other lines. Where memory
/// runs out it answers `AllocError`.
pub fn coverage_text(
    alloc: Global,
    coverage: &Coverage,
    plan: &Plan,
    program: &Program,
) -> Result<Text, AllocError>
    ensures { IfOk result (λ text. text ≡ coverage_text plan.now program.now coverage.now) }
{
    let mut text = String::new(alloc);
    push_contexts(
        &mut text,
        alloc,
        plan,
        program,
        coverage.contexts.as_slice(),
    )?;
    push_sources(
        &mut text,
        alloc,
        plan,
        program,
        "all",
        coverage.all.as_slice(),
    )?;
    Ok(Text::of(text))
}
