//! Counts the paths of calls in each log of the input, and prints them. A log begins with a line `log EVENTS`, with the number of
//! the run's events; each further line of it is an entry, `begin EVENT NODE` or `end EVENT NODE`. A path is printed as the number
//! of its activations, the number of its events, and its nodes with `/` between them. What it must print for the lines of `stdin`
//! stands in `stdout`, counted by a script from all events of the runs, activation by activation, and not by this program.
#![tactic(auto)]

ghost use Rattle.std.specs.Prelude.{◌≡◌, map, true};
ghost use Rattle.pd_running.specs.Running.{mark_in};
ghost use Rattle.pd_paths.specs.Tally.{AreRising};

use pd_log::Entry;
use pd_machine::EventKind;
use pd_paths::{PathCount, counted};
use pd_values::{NodeId, Value};
use std::io::{self, BufRead, BufReader};

/// The entry of a line; `None` where it is none.
fn entry_of(line: &str) -> Option<Entry> {
    let (word, rest) = line.split_once(' ')?;
    let (event, node) = rest.split_once(' ')?;
    let event = event.parse::<u32>().ok()?;
    let node = NodeId(node.parse::<u32>().ok()?);
    let kind = match word {
        "begin" => EventKind::Enter,
        "end" => EventKind::Return(Value::Null),
        _ => return None,
    };
    Some(Entry {
        context: 0,
        event,
        opened: event,
        place: 0,
        kind,
        node,
    })
}

/// Whether the entries are of rising events, from number `next` on and below so many.
fn are_rising(next: u32, events: u32, log: &[Entry]) -> bool
    ensures { result ≡ true → AreRising next events (map mark_in log.now) }
{
    match log {
        [] => next <= events,
        [first, rest @ ..] => {
            next <= first.event && first.event < events && are_rising(first.event + 1, events, rest)
        }
    }
}

/// Prints a path with its numbers.
fn print_path(rt: &HostRuntime, path: &PathCount) -> io::Result<()> {
    print!(rt; "  {} {} ", path.count, path.own)?;
    let mut between = "";
    for node in path.path.as_slice() {
        print!(rt; "{between}{}", node.0)?;
        between = "/";
    }
    println!(rt; "")
}

/// Prints the paths of a log.
fn print_paths(rt: &HostRuntime, events: u32, log: &[Entry]) -> io::Result<()> {
    if !are_rising(0, events, log) {
        return println!(rt; "no log");
    }
    let paths = counted(rt.alloc(), log, events)?;
    println!(rt; "{events} events")?;
    for path in paths.as_slice() {
        print_path(rt, path)?;
    }
    Ok(())
}

fn main(rt: HostRuntime) -> io::Result<()> {
    let alloc = rt.alloc();
    let mut log = Vec::new(alloc);
    let mut events = 0;
    let mut number = 0u32;
    for line in BufReader::new(alloc, rt.reader())?.lines(alloc) {
        let line = line?;
        let Some(count) = line.strip_prefix("log ") else {
            if let Some(entry) = entry_of(line.as_str()) {
                log.push(entry)?;
            }
            continue;
        };
        if number > 0 {
            print_paths(&rt, events, log.as_slice())?;
        }
        number = number.saturating_add(1);
        log = Vec::new(alloc);
        events = count.parse::<u32>().unwrap_or(0);
    }
    print_paths(&rt, events, log.as_slice())
}
