//! The nodes at which a breakpoint on a line stops.
ghost use Rattle.std.specs.Prelude.{◌≡◌, ◌<◌, length};
ghost use Rattle.pd_tree.specs.Program.{node_at};
ghost use Rattle.pd_break.specs.declared.resolving.Resolved.TheVariants.{Line};
ghost use Rattle.pd_break.specs.Resolving.{is_statement, resolved, starts_from, starts_on, lesser};

use pd_tree::Program;
use pd_values::{NodeId, Tag};

/// Where a breakpoint on a line stops.
#[derive(Clone, Copy, Debug, Drop, PartialEq, Eq)]
pub enum Resolved {
    /// At the Statement nodes that start on this line, of which there is at least one.
    Line(u32),
    /// Nowhere.
    Unresolved,
}

/// The line that is asked for, where a Statement node of this source starts on it; else the least later line on which
/// one does. `Unresolved` exactly where no Statement node of this source starts on the line or after it, so for a
/// source that there isn't, too. Lines are counted from 1. It looks at each node once and takes no memory.
pub fn resolve(program: &Program, source: u32, line: u32) -> Resolved
    ensures { result ≡ resolved program.now source line }
{
    let mut least = Resolved::Unresolved;
    for n in 0..program.nodes() {
        let node = NodeId(n);
        if is_from(program, source, line, node) {
            least = Resolved::Line(lesser_line(program.line(node), least));
        }
    }
    least
}

/// Whether a Statement node of this source starts on this line. It takes no memory.
pub fn is_on(program: &Program, source: u32, line: u32, n: NodeId) -> bool
    requires { n < length program.now.nodes }
    ensures { result ≡ starts_on program.now source line n }
{
    is_stop(program, n) && program.section(n).source == source && program.line(n) == line
}

/// Whether a node has the tag Statement, so that a breakpoint or a pause can stop there. It takes no memory.
pub fn is_stop(program: &Program, n: NodeId) -> bool
    requires { n < length program.now.nodes }
    ensures { result ≡ is_statement program.now n }
{
    program.has(n, Tag::Statement)
}

// Whether a Statement node of this source starts on this line or a later one.
fn is_from(program: &Program, source: u32, line: u32, n: NodeId) -> bool
    requires { n < length program.now.nodes }
    ensures { result ≡ starts_from program.now source line n }
{
    is_stop(program, n) && program.section(n).source == source && line <= program.line(n)
}

fn lesser_line(line: u32, least: Resolved) -> u32
    ensures { Line result ≡ lesser line least }
{
    match least {
        Resolved::Unresolved => line,
        Resolved::Line(other) => line.min(other),
    }
}
