//! Merges the logs of each line of the input, and prints the entries as they then stand, each by its place and the number of
//! its log. A line has the places of each log, with a blank between, and `;` behind each log; an empty line has no log. Logs
//! that have one place twice can't be merged. What it must print for the lines of `stdin` stands in `stdout`, sorted by a
//! script, not by this program.
#![tactic(auto)]

ghost use Rattle.std.specs.Prelude.{◌≡◌, ◌++◌, ◌==◌, true, false, count_by};
ghost use Rattle.pd_log.specs.Merging.{entries_in, PlacesDiffer};

use pd_log::{Entry, merge};
use pd_machine::EventKind;
use pd_values::NodeId;
use std::alloc::{AllocError, Global};
use std::io::{self, BufRead, BufReader};

/// The entry at a place of the log with this number.
fn entry_at(log: u32, place: u64) -> Entry {
    Entry {
        context: log,
        event: 0,
        opened: 0,
        place,
        kind: EventKind::Enter,
        node: NodeId(0),
    }
}

/// The log of these words, each of which is a place.
fn log_of(alloc: Global, number: u32, words: &str) -> Result<Vec<Entry>, AllocError> {
    let mut log = Vec::new(alloc);
    for word in words.split(' ') {
        if let Ok(place) = word.parse::<u64>() {
            log.push(entry_at(number, place))?;
        }
    }
    Ok(log)
}

/// The logs of a line.
fn logs_of(alloc: Global, line: &str) -> Result<Vec<Vec<Entry>>, AllocError> {
    let mut logs = Vec::new(alloc);
    let mut number = 0u32;
    let mut rest = line;
    for _ in 0..line.len() {
        let Some((words, others)) = rest.split_once(';') else {
            break;
        };
        logs.push(log_of(alloc, number, words)?)?;
        number = number.saturating_add(1);
        rest = others;
    }
    Ok(logs)
}

/// Whether an entry stands at this place.
fn has(log: &[Entry], place: u64) -> bool
    ensures { result ≡ false → count_by (λ e. e.place == place) log.now ≡ 0 }
{
    match log {
        [] => false,
        [first, rest @ ..] => first.place == place || has(rest, place),
    }
}

/// Whether an entry of one of the logs stands at this place.
fn have(logs: &[Vec<Entry>], place: u64) -> bool
    ensures { result ≡ false → count_by (λ e. e.place == place) (entries_in logs.now) ≡ 0 }
{
    match logs {
        [] => false,
        [first, rest @ ..] => has(first.as_slice(), place) || have(rest, place),
    }
}

/// Whether each entry of a log stands at a place where no later one of it stands and none of the other logs.
fn is_apart(log: &[Entry], others: &[Vec<Entry>]) -> bool
    ensures { result ≡ true → PlacesDiffer (entries_in others.now) → PlacesDiffer (log.now ++ entries_in others.now) }
{
    match log {
        [] => true,
        [first, rest @ ..] => {
            if has(rest, first.place) || have(others, first.place) {
                return false;
            }
            is_apart(rest, others)
        }
    }
}

/// Whether no two entries of the logs stand at one place.
fn are_apart(logs: &[Vec<Entry>]) -> bool
    ensures { result ≡ true → PlacesDiffer (entries_in logs.now) }
{
    match logs {
        [] => true,
        [first, rest @ ..] => is_apart(first.as_slice(), rest) && are_apart(rest),
    }
}

/// Prints these logs merged.
fn print_merged(rt: &HostRuntime, logs: Vec<Vec<Entry>>) -> io::Result<()> {
    print!(rt; "{} logs:", logs.len())?;
    if !are_apart(logs.as_slice()) {
        return println!(rt; " a place twice");
    }
    let merged = merge(rt.alloc(), logs)?;
    for entry in merged.as_slice() {
        print!(rt; " {}@{}", entry.context, entry.place)?;
    }
    println!(rt; "")
}

fn main(rt: HostRuntime) -> io::Result<()> {
    let alloc = rt.alloc();
    for line in BufReader::new(alloc, rt.reader())?.lines(alloc) {
        print_merged(&rt, logs_of(alloc, line?.as_str())?)?;
    }
    Ok(())
}
