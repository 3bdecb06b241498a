//! The lines on which statements start.
ghost use Rattle.std.specs.Prelude.{◌≡◌, length, IfOk};
ghost use Rattle.pd_tree.specs.Program.{node_at};
ghost use Rattle.pd_coverage.specs.Lines.{is_line_of, last_line, lines_of, covered_lines, missed_lines};
ghost use Rattle.pd_coverage.specs.Table.{IsTable};

use crate::Covered;
use crate::table::{blank, is_marked};
use pd_tree::Program;
use pd_values::{Items, NodeId};
use std::alloc::{AllocError, Global};

/// The lines on which statements of a source start.
#[derive(Drop)]
pub(crate) struct Lines {
    /// How many there are.
    pub(crate) all: usize,
    /// On how many of them one starts that was hit.
    pub(crate) covered: usize,
    /// The others, rising.
    pub(crate) missed: Vec<usize>,
}

// The line on which a node starts; 0 for a number past the last node.
fn line_of(program: &Program, n: NodeId) -> u32
    ensures { result ≡ (node_at program.now n).line }
{
    if n.0 < program.nodes() {
        program.line(n)
    } else {
        0
    }
}

// The greatest line on which one of these nodes starts.
fn last_line(program: &Program, nodes: &[NodeId]) -> u32
    ensures { result ≡ last_line program.now nodes.now }
{
    let mut last = 0;
    for n in nodes {
        last = line_of(program, *n).max(last);
    }
    last
}

// A table of so many lines, where those on which one of these nodes starts are marked.
fn starts(
    alloc: Global,
    program: &Program,
    nodes: &[NodeId],
    count: usize,
) -> Result<Items<bool>, AllocError>
    ensures { IfOk result (IsTable (is_line_of program.now nodes.now) count) }
{
    let mut lines = blank(alloc, count)?;
    for n in nodes {
        lines.set(line_of(program, *n) as usize, true);
    }
    Ok(lines)
}

/// The lines of a source's statements. It looks at each of them once, and then at each line once.
pub(crate) fn count_lines(
    alloc: Global,
    program: &Program,
    x: &Covered,
) -> Result<Lines, AllocError>
    ensures all { IfOk result (λ lines. lines.all ≡ length (lines_of program.now x.now.nodes)) }
    ensures covered { IfOk result (λ lines. lines.covered ≡ length (covered_lines program.now x.now)) }
    ensures missed { IfOk result (λ lines. lines.missed.items ≡ missed_lines program.now x.now) }
{
    let count = last_line(program, x.nodes.as_slice()) as usize + 1;
    let starting = starts(alloc, program, x.nodes.as_slice(), count)?;
    let covered = starts(alloc, program, x.hit.as_slice(), count)?;
    let mut all = Vec::new(alloc);
    let mut missed = Vec::new(alloc);
    for line in 0..count {
        if is_marked(&starting, line) {
            all.push(line)?;
            if !is_marked(&covered, line) {
                missed.push(line)?;
            }
        }
    }
    Ok(Lines {
        all: all.len(),
        covered: all.len() - missed.len(),
        missed,
    })
}
