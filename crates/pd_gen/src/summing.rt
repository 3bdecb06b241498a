//! What is told of the report of a workload.
ghost use Rattle.std.specs.Prelude.{◌≡◌, ◌<◌, ◌≤◌, ◌∷◌, length, map, IfOk};
ghost use Rattle.std.specs.List.{count_by, sum_by};
ghost use Rattle.pd_report.specs.Lines.{lines_of};
ghost use Rattle.pd_gen.specs.Summing.{is_done, first_output, last_line, summary_of};

use crate::told::Summary;
use pd_board::BindingTally;
use pd_report::Report;
use pd_suspend::ContextRecord;
use pd_values::{End, Items, Text};
use std::alloc::{AllocError, Global};

fn is_done(end: &End) -> bool
    ensures { result ≡ is_done end.now }
{
    matches!(end, End::Done(_))
}

// How many of the contexts ended with a value.
fn done_among(contexts: &[ContextRecord]) -> usize
    ensures { result ≡ count_by (λ context. is_done context.«end») contexts.now }
{
    contexts
        .iter()
        .filter(|context| is_done(&context.end))
        .count()
}

// How many events the contexts had, all together.
fn events_of(contexts: &[ContextRecord]) -> u64
    requires { length contexts.now ≤ 16 }
    ensures { result ≡ sum_by (λ context. context.events) contexts.now }
{
    contexts
        .iter()
        .map(|context| u64::from(context.events))
        .sum()
}

// The count of each binding.
fn counts_of(alloc: Global, tallies: &[BindingTally]) -> Result<Items<u64>, AllocError>
    ensures { IfOk result (λ counts. counts ≡ map (λ tally. tally.count) tallies.now) }
{
    let counts: Vec<u64> = tallies.iter().map(|tally| tally.count).collect(alloc)?;
    Ok(Items::of(counts))
}

// What the first context wrote.
fn first_output(contexts: &[ContextRecord]) -> &str
    ensures { result.now ≡ first_output contexts.now }
{
    match contexts {
        [first, ..] => first.output.as_str(),
        [] => "",
    }
}

// The first line of a text, and what stands after it.
fn next_line(text: &str) -> (&str, &str)
    requires { 0 < length text.now }
    ensures lines { lines_of text.now ≡ result.0.now ∷ lines_of result.1.now }
    ensures shorter { length result.1.now < length text.now }
{
    match text.split_once('\n') {
        Some((line, behind)) => (line, behind),
        None => (text, ""),
    }
}

// The last line of an output, without its end; empty where there is none.
fn last_line(output: &str) -> &str
    ensures { result.now ≡ last_line output.now }
{
    let mut last = "";
    let mut rest = output;
    'lines: while !rest.is_empty() {
        let (line, behind) = next_line(rest);
        last = line;
        rest = behind;
    }
    last
}

/// What is told of the report of the workload of this number. Condition: there are at most 16 contexts, as in the report
/// of a plan's run. The only error is `AllocError`, where memory runs out.
pub fn summary(alloc: Global, number: u32, report: &Report) -> Result<Summary, AllocError>
    requires few { length report.now.contexts ≤ 16 }
    ensures { IfOk result (λ told. told ≡ summary_of number report.now) }
{
    let contexts = report.contexts.as_slice();
    let last = last_line(first_output(contexts));
    Ok(Summary {
        number,
        contexts: contexts.len() as u32,
        done: done_among(contexts) as u32,
        events: events_of(contexts),
        counts: counts_of(alloc, report.tally.bindings())?,
        last: Text::of(String::from_str(alloc, last)?),
    })
}
