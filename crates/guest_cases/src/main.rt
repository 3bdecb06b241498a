//! Runs the first context of each plan that the input names twice, over a board of one thread and over a seat of a shared board,
//! after the bindings of each session's `before` list were attached; prints what is told of the run, and whether both boards
//! tell the same. Sessions' actions aren't done. What it must print for the lines of `stdin` stands in `stdout`, made by a
//! script from worked transcripts of these plans, not by this program.
#![tactic(auto)]

ghost use Rattle.pd_plan.specs.Sound.{IsSound};
ghost use Rattle.case_plans.specs.Entries.{HasEntries};

mod running;
mod showing;

use crate::running::{over_a_board, over_a_seat};
use crate::showing::shown;
use case_plans::{Loaded, load_files};
use pd_suspend::ContextRecord;
use std::io::{self, BufRead, BufReader};

/// Prints what is told of a plan's first context.
fn print_runs(rt: &HostRuntime, it: &Loaded) -> io::Result<()>
    requires sound { IsSound it.now.plan }
    requires entries { HasEntries it.now.plan it.now.program }
{
    let alloc = rt.alloc();
    let Loaded { plan, program, .. } = it;
    if plan.contexts.as_slice().is_empty() {
        return println!(rt; "no context");
    }
    let alone = over_a_board(alloc, plan, program)?;
    let shared = over_a_seat(alloc, plan, program)?;
    let text = shown(alloc, program, &alone)?;
    let other = shown(alloc, program, &shared)?;
    print!(rt; "{}", text.as_str())?;
    if text.as_str() == other.as_str() && saw_the_same(&alone, &shared) {
        println!(rt; "over a seat the same")
    } else {
        print!(rt; "over a seat\n{}", other.as_str())
    }
}

/// Whether two records saw the same of their bindings, draw by draw.
fn saw_the_same(left: &ContextRecord, right: &ContextRecord) -> bool {
    let (seen, other) = (left.seen.as_slice(), right.seen.as_slice());
    left.events == right.events
        && seen.len() == other.len()
        && seen.iter().zip(other).all(|(a, b)| *a == *b)
}

fn main(rt: HostRuntime) -> io::Result<()> {
    let alloc = rt.alloc();
    for line in BufReader::new(alloc, rt.reader())?.lines(alloc) {
        let line = line?;
        println!(rt; "$ {}", line.as_str())?;
        match load_files(&rt, alloc, line.as_str())? {
            Some(it) => print_runs(&rt, &it)?,
            None => println!(rt; "no program")?,
        }
    }
    Ok(())
}
