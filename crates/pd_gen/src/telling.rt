//! The text of a summary.
ghost use Rattle.std.specs.Prelude.{◌≡◌, ◌++◌, string_bytes, OnOk, IfOk};
ghost use Rattle.pd_report.specs.Lines.{numbered};
ghost use Rattle.pd_gen.specs.Summing.{first_lines, count_line, end_line, summary_text};

use crate::told::Summary;
use pd_values::Text;
use std::alloc::{AllocError, Global};

// The lines of the number, the contexts and the events.
fn push_first(text: &mut String, summary: &Summary) -> Result<(), AllocError>
    ensures { OnOk result (string_bytes text.new ≡ string_bytes text.old ++ first_lines summary.now) }
{
    let Summary {
        number,
        contexts,
        done,
        events,
        ..
    } = summary;
    writeln!(
        text,
        "gen {number}\ncontexts {contexts} done {done}\nevents {events}"
    )
}

// A line for the count of each binding.
fn push_counts(text: &mut String, counts: &[u64]) -> Result<(), AllocError>
    ensures { OnOk result (string_bytes text.new ≡ string_bytes text.old ++ numbered count_line 0 counts.now) }
{
    for (number, count) in counts.iter().enumerate() {
        writeln!(text, "binding {number} count {count}")?;
    }
    Ok(())
}

// The line of the last line of the first context.
fn push_end(text: &mut String, last: &str) -> Result<(), AllocError>
    ensures { OnOk result (string_bytes text.new ≡ string_bytes text.old ++ end_line last.now) }
{
    writeln!(text, "last {last}")
}

/// The text of a summary: the number, the contexts, the events, the count of each binding, and the last line, each on a
/// line of its own. The only error is `AllocError`, where memory runs out.
pub fn summary_text(alloc: Global, summary: &Summary) -> Result<Text, AllocError>
    ensures { IfOk result (λ text. text ≡ summary_text summary.now) }
{
    let mut text = String::new(alloc);
    push_first(&mut text, summary)?;
    push_counts(&mut text, summary.counts.as_slice())?;
    push_end(&mut text, summary.last.as_str())?;
    Ok(Text::of(text))
}
