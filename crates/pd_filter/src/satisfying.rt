//! Whether a node satisfies a filter.
ghost use Rattle.std.specs.Prelude.{◌≡◌, ◌<◌, length, bytes_eq, ◌==◌, ◌||◌};
ghost use Rattle.std.specs.List.{list_any};
ghost use Rattle.pd_tree.specs.Program.{node_at, has_tag};
ghost use Rattle.pd_filter.specs.Matching as matching;

use pd_plan::{Filter, LineRange};
use pd_tree::Program;
use pd_values::{NodeId, Tag, Text};

/// Whether a node satisfies a filter: it has a tag, and meets each of the filter's lists. It takes no memory.
pub fn sat(f: &Filter, program: &Program, n: NodeId) -> bool
    requires { n < length program.now.nodes }
    ensures { result ≡ matching.satisfies f.now program.now n }
{
    meets_tags(f, program, n) && meets_place(f, program, n)
}

// Whether a node has a tag, one of those that are wanted, and none of those that aren't.
fn meets_tags(f: &Filter, program: &Program, n: NodeId) -> bool
    requires { n < length program.now.nodes }
    ensures { result ≡ matching.meets_tags f.now (node_at program.now n).tags }
{
    let wanted = f.tags.as_slice();
    !program.tags(n).is_empty()
        && is_met(wanted, has_one_of(program, n, wanted))
        && !has_one_of(program, n, f.not_tags.as_slice())
}

// Whether a node stands in one of the sources, the ranges of lines, and the functions or procedures that are wanted.
fn meets_place(f: &Filter, program: &Program, n: NodeId) -> bool
    requires { n < length program.now.nodes }
    ensures { result ≡ matching.meets_place f.now program.now (node_at program.now n) }
{
    let (sources, lines, names) = (f.sources.as_slice(), f.lines.as_slice(), f.roots.as_slice());
    is_met(sources, has_source(sources, program.section(n).source))
        && is_met(lines, has_line(lines, program.line(n)))
        && is_met(names, has_name(names, program.root_name(n)))
}

// Whether a list of wanted things is met, where it is known whether one of them was found: an empty list is no condition.
fn is_met<T>(wanted: &[T], found: bool) -> bool
    ensures { result ≡ (matching.is_empty wanted.now || found) }
{
    wanted.is_empty() || found
}

fn has_one_of(program: &Program, n: NodeId, tags: &[Tag]) -> bool
    requires { n < length program.now.nodes }
    ensures { result ≡ list_any (has_tag (node_at program.now n).tags) tags.now }
{
    tags.iter().any(|tag| program.has(n, *tag))
}

fn has_source(sources: &[u32], source: u32) -> bool
    ensures { result ≡ list_any (λ s. s == source) sources.now }
{
    sources.iter().any(|s| *s == source)
}

fn has_line(ranges: &[LineRange], line: u32) -> bool
    ensures { result ≡ list_any (matching.is_in line) ranges.now }
{
    ranges
        .iter()
        .any(|range| range.from <= line && line <= range.to)
}

fn has_name(names: &[Text], name: &Text) -> bool
    ensures { result ≡ list_any (λ x. bytes_eq x name.now) names.now }
{
    names.iter().any(|x| x.as_str() == name.as_str())
}
