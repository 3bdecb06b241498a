//! Makes the match table of each line of the input twice, from the lists of an index and by going over all nodes for each
//! binding, and says whether the two are the same. A line has a number and the name of a plan's file; so many observers of
//! one line each, from line 1 on, are put behind the plan's own bindings. The rows of the plan's own bindings are printed
//! with their nodes, those of the others by their lengths, where rows beside each other of one length stand together.
//! What it must print for the lines of `stdin` stands in `stdout`, made by a script from the nodes of the trees and the
//! rules of filters, not by this program.
#![tactic(auto)]

use case_plans::{Loaded, load_files};
use pd_plan::{BindingSpec, Filter, LineRange, MatchTable, Plan};
use pd_values::{Items, NodeId};
use std::alloc::{AllocError, Global};
use std::io::{self, BufRead, BufReader};

fn none<T: Drop>(alloc: Global) -> Items<T> {
    Items::of(Vec::new(alloc))
}

/// The observer of the nodes that start on a line.
fn on_line(alloc: Global, line: u32) -> Result<BindingSpec, AllocError> {
    let range = LineRange {
        from: line,
        to: line,
    };
    Ok(BindingSpec::Observe(Filter {
        tags: none(alloc),
        not_tags: none(alloc),
        sources: none(alloc),
        lines: Items::of(vec![in alloc; range]?),
        roots: none(alloc),
    }))
}

/// Puts observers of lines 1 to `count` behind the bindings of a plan.
fn add_lines(alloc: Global, plan: &mut Plan, count: u32) -> Result<(), AllocError> {
    for before in 0..count {
        plan.bindings.push(on_line(alloc, before + 1)?)?;
    }
    Ok(())
}

fn is_same_row(row: &[NodeId], other: &[NodeId]) -> bool {
    row.len() == other.len() && row.iter().zip(other).all(|(n, m)| n.0 == m.0)
}

/// Whether two tables have the same rows, drawn in the same way.
fn is_same(table: &MatchTable, other: &MatchTable) -> bool {
    let (rows, others) = (table.rows.as_slice(), other.rows.as_slice());
    let (always, also) = (table.always.as_slice(), other.always.as_slice());
    rows.len() == others.len()
        && always.len() == also.len()
        && rows.iter().zip(others).all(|(row, other)| is_same_row(row.as_slice(), other.as_slice()))
        && always.iter().zip(also).all(|(left, right)| *left == *right)
}

/// Prints the nodes of a row.
fn print_row(rt: &HostRuntime, number: usize, row: &[NodeId], always: bool) -> io::Result<()> {
    let drawn = if always { "always" } else { "if it holds" };
    print!(rt; "  row {number} {drawn}:")?;
    for node in row {
        print!(rt; " {}", node.0)?;
    }
    println!(rt; "")
}

/// Prints how many nodes the rows from number `from` to before number `to` have each.
fn print_lengths(rt: &HostRuntime, from: usize, to: usize, nodes: usize) -> io::Result<()> {
    let last = to.saturating_sub(1);
    if from == last {
        println!(rt; "  row {from}: {nodes} nodes")
    } else {
        println!(rt; "  rows {from} to {last}: {nodes} nodes each")
    }
}

/// Prints a table, whose first `own` rows are those of the plan's own bindings.
fn print_table(rt: &HostRuntime, table: &MatchTable, own: usize) -> io::Result<()> {
    let rows = table.rows.as_slice();
    let drawn = table.always.as_slice();
    let (mut from, mut nodes) = (own, 0);
    for (number, (row, always)) in rows.iter().zip(drawn).enumerate() {
        let row = row.as_slice();
        if number < own {
            print_row(rt, number, row, *always)?;
            continue;
        }
        if number > from && row.len() != nodes {
            print_lengths(rt, from, number, nodes)?;
            from = number;
        }
        nodes = row.len();
    }
    if from < rows.len() {
        print_lengths(rt, from, rows.len(), nodes)?;
    }
    Ok(())
}

/// Makes and prints both tables of a plan over its program.
fn print_tables(rt: &HostRuntime, loaded: Loaded, count: u32) -> io::Result<()> {
    let alloc = rt.alloc();
    let Loaded {
        mut plan,
        program,
        ..
    } = loaded;
    let own = plan.bindings.as_slice().len();
    add_lines(alloc, &mut plan, count)?;
    let table = pd_index::matches(alloc, &plan, &program)?;
    let walked = pd_filter::matches(alloc, &plan, &program)?;
    let word = if is_same(&table, &walked) {
        "same"
    } else {
        "not the same"
    };
    println!(rt; "  {} nodes, {word}", program.nodes())?;
    print_table(rt, &table, own)
}

fn main(rt: HostRuntime) -> io::Result<()> {
    let alloc = rt.alloc();
    for line in BufReader::new(alloc, rt.reader())?.lines(alloc) {
        let line = line?;
        println!(rt; "{}", line.as_str())?;
        let Some((count, name)) = line.split_once(' ') else {
            println!(rt; "  no case")?;
            continue;
        };
        let Ok(count) = count.parse::<u32>() else {
            println!(rt; "  no case")?;
            continue;
        };
        match load_files(&rt, alloc, name)? {
            Some(loaded) => print_tables(&rt, loaded, count)?,
            None => println!(rt; "  no program")?,
        }
    }
    Ok(())
}
