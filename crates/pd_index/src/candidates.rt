//! The nodes among which those of a binding are.
ghost use Rattle.std.specs.Prelude.{◌≡◌, ℕ, ◌-◌, ◌^◌, ◌++◌, flat_map, length, IfOk, IfSome, OnOk, true};
ghost use Rattle.std.specs.List.{Contains};
ghost use Rattle.pd_filter.specs.Matching.{is_about, is_empty, satisfies, stop_line};
ghost use Rattle.pd_index.specs.Kept.{IsIndexOf, list_of, of_source, on_range, sources_of};
ghost use Rattle.pd_index.specs.Among.{IsAmong, RisesFrom};

use crate::index::NodeIndex;
use crate::lines::Lines;
use pd_break::Resolved;
use pd_plan::{BindingSpec, Filter, LineRange};
use pd_tree::Program;
use pd_values::{NodeId, Tag};
use std::alloc::{AllocError, Global};

/// The numbers, rising, of nodes among which are all that a binding is about; `line` is the line to which a
/// breakpoint's own is resolved. For an observer they are the fewer of those with one of the tags that its filter names
/// and those on the lines of the sources that it names. `None` are all nodes of the program. The only error is
/// `AllocError`, where memory runs out.
pub(crate) fn candidates(
    alloc: Global,
    binding: &BindingSpec,
    line: Resolved,
    index: &NodeIndex,
    program: &Program,
) -> Result<Option<Vec<u32>>, AllocError>
    requires of_the_program { IsIndexOf program.now index.now }
    requires of_the_binding { line ≡ stop_line program.now binding.now }
    ensures { IfOk result (λ some. IfSome some (λ v. IsAmong (length program.now.nodes) (is_about program.now binding.now) v.items)) }
{
    match binding {
        BindingSpec::Observe(filter) => of_filter(alloc, filter, index, program),
        BindingSpec::Break(spec) => match line {
            Resolved::Line(line) => Ok(Some(numbers(alloc, index.by_line(spec.source, line))?)),
            Resolved::Unresolved => Ok(Some(Vec::new(alloc))),
        },
        BindingSpec::Pause { .. } => Ok(Some(numbers(alloc, index.by_tag(Tag::Statement))?)),
    }
}

// The same for an observer.
fn of_filter(
    alloc: Global,
    filter: &Filter,
    index: &NodeIndex,
    program: &Program,
) -> Result<Option<Vec<u32>>, AllocError>
    requires { IsIndexOf program.now index.now }
    ensures { IfOk result (λ some. IfSome some (λ v. IsAmong (length program.now.nodes) (satisfies filter.now program.now) v.items)) }
{
    let nodes = program.nodes() as usize;
    let (tags, places) = (
        count_tags(filter, index),
        count_places(filter, &index.lines),
    );
    if nodes <= tags && nodes <= places {
        Ok(None)
    } else if tags <= places {
        Ok(Some(rising(with_tags(alloc, filter, index)?)))
    } else {
        Ok(Some(rising(on_places(alloc, filter, &index.lines)?)))
    }
}

// The same numbers, rising.
fn rising(numbers: Vec<u32>) -> Vec<u32>
    ensures rises { RisesFrom 0 result.items }
    ensures whole { (n : ℕ) → Contains numbers.items n → Contains result.items n }
    ensures only { (n : ℕ) → Contains result.items n → Contains numbers.items n }
{
    let mut rising = numbers;
    rising.sort_unstable();
    rising.dedup();
    rising
}

// The numbers of these nodes.
fn numbers(alloc: Global, nodes: &[NodeId]) -> Result<Vec<u32>, AllocError>
    ensures { IfOk result (λ v. v.items ≡ nodes.now) }
{
    let mut numbers = Vec::new(alloc);
    add(&mut numbers, nodes)?;
    Ok(numbers)
}

// How many nodes the lists of the tags that a filter names have together; more than any where it names none.
fn count_tags(filter: &Filter, index: &NodeIndex) -> usize
    ensures { is_empty filter.now.tags ≡ true → result ≡ 2 ^ 64 - 1 }
{
    if filter.tags.is_empty() {
        return usize::MAX;
    }
    let mut count: usize = 0;
    for tag in filter.tags.as_slice() {
        count = count.saturating_add(index.list(*tag).len());
    }
    count
}

// The nodes with one of the tags that a filter names.
fn with_tags(alloc: Global, filter: &Filter, index: &NodeIndex) -> Result<Vec<u32>, AllocError>
    ensures { IfOk result (λ v. v.items ≡ flat_map (list_of index.now) filter.now.tags) }
{
    let mut some = Vec::new(alloc);
    for tag in filter.tags.as_slice() {
        add(&mut some, index.list(*tag))?;
    }
    Ok(some)
}

// How many nodes stand on the lines that a filter names, of the sources that it names; more than any where it names
// neither.
fn count_places(filter: &Filter, lines: &Lines) -> usize {
    if filter.sources.is_empty() && filter.lines.is_empty() {
        return usize::MAX;
    }
    let mut count: usize = 0;
    for source in named(filter, lines) {
        count = count.saturating_add(count_source(filter.lines.as_slice(), lines, *source));
    }
    count
}

fn count_source(ranges: &[LineRange], lines: &Lines, source: u32) -> usize {
    if ranges.is_empty() {
        return lines.stretch(source, 0, u32::MAX).len();
    }
    let mut count: usize = 0;
    for range in ranges {
        count = count.saturating_add(lines.stretch(source, range.from, range.to).len());
    }
    count
}

// The nodes with a tag that stand on the lines that a filter names, of the sources that it names.
fn on_places(alloc: Global, filter: &Filter, lines: &Lines) -> Result<Vec<u32>, AllocError>
    ensures { IfOk result (λ v. v.items ≡ flat_map (of_source lines.now filter.now.lines) (sources_of filter.now lines.now)) }
{
    let mut some = Vec::new(alloc);
    for source in named(filter, lines) {
        add_source(&mut some, filter.lines.as_slice(), lines, *source)?;
    }
    Ok(some)
}

fn add_source(
    some: &mut Vec<u32>,
    ranges: &[LineRange],
    lines: &Lines,
    source: u32,
) -> Result<(), AllocError>
    ensures { OnOk result (some.new.items ≡ some.old.items ++ of_source lines.now ranges.now source) }
{
    if ranges.is_empty() {
        add(some, lines.stretch(source, 0, u32::MAX))
    } else {
        add_ranges(some, ranges, lines, source)
    }
}

fn add_ranges(
    some: &mut Vec<u32>,
    ranges: &[LineRange],
    lines: &Lines,
    source: u32,
) -> Result<(), AllocError>
    ensures { OnOk result (some.new.items ≡ some.old.items ++ flat_map (on_range lines.now source) ranges.now) }
{
    for range in ranges {
        add(some, lines.stretch(source, range.from, range.to))?;
    }
    Ok(())
}

// The sources that a filter names; where it names none, all that have nodes with a tag.
fn named<'a>(filter: &'a Filter, lines: &'a Lines) -> &'a [u32]
    ensures { result.now ≡ sources_of filter.now lines.now }
{
    if filter.sources.is_empty() {
        lines.sources()
    } else {
        filter.sources.as_slice()
    }
}

fn add(some: &mut Vec<u32>, more: &[NodeId]) -> Result<(), AllocError>
    ensures { OnOk result (some.new.items ≡ some.old.items ++ more.now) }
{
    for n in more {
        some.push(n.0)?;
    }
    Ok(())
}
