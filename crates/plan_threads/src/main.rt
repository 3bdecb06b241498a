//! Runs plans in threads. First a gate holds two contexts at their first event until both have come there; then one holds a
//! context and a session in turns. A run whose contexts go one after another, or whose sessions act before or after them,
//! lets no one come in time, and is told here. Then rounds: four contexts run beside four sessions that attach, toggle and
//! dispose bindings beneath them, and each report and transcript is looked at by rules of its own. Prints the same whatever
//! order the threads ran in.
#![tactic(auto)]

mod command;
mod contexts;
mod fault;
mod gates;
mod lives;
mod logs;
mod numbers;
mod round;
mod transcript;

use crate::command::ran;
use crate::gates::{ContextsMeet, TakeTurns};
use crate::round::play_round;
use pd_log::Entry;
use pd_outside::{FolderLibrary, Library, OpenGate};
use pd_run::Report;
use std::alloc::Global;
use std::io;
use std::thread::Threads;

/// How many rounds are played.
const ROUNDS: u32 = 200;

/// Two contexts come to each other.
fn contexts_meet<R: Threads + Sync + Print, L: Library>(
    rt: &R,
    alloc: Global,
    files: &mut L,
) -> io::Result<()> {
    let gate = ContextsMeet::new();
    let outcome = ran(rt, alloc, files, "run", "meet.json", &gate);
    let met = gate.met();
    println!(rt; "contexts: {met} of 2 holds met")?;
    match outcome {
        Ok(_) => Ok(()),
        Err(fault) => println!(rt; "{fault:?}"),
    }
}

/// A context and a session come to each other three times; what they did is told.
fn turns_are_taken<R: Threads + Sync + Print, L: Library>(
    rt: &R,
    alloc: Global,
    files: &mut L,
) -> io::Result<()> {
    let gate = TakeTurns::new();
    let outcome = ran(rt, alloc, files, "run", "wait.json", &gate);
    let met = gate.met();
    println!(rt; "context and session: {met} of 3 holds met")?;
    match outcome {
        Ok(ran) => print!(rt; "{}", ran.transcript().unwrap_or_default()),
        Err(fault) => println!(rt; "{fault:?}"),
    }
}

/// What an observer of all statements was given in the one context of a report; nothing where there is none.
fn whole_log(report: &Report) -> &[Entry] {
    match report.contexts.as_slice().first() {
        Some(context) => match context.logs.as_slice().first() {
            Some(log) => log.as_slice(),
            None => &[],
        },
        None => &[],
    }
}

/// Plays the rounds. Prints a line for each that doesn't agree, or one line where all do.
fn rounds_agree<R: Threads + Sync + Print, L: Library>(
    rt: &R,
    alloc: Global,
    files: &mut L,
    whole: &[Entry],
) -> io::Result<()> {
    let mut differ = 0u32;
    for round in 0..ROUNDS {
        if let Err(fault) = play_round(rt, alloc, files, whole) {
            differ = differ.saturating_add(1);
            println!(rt; "round {round}: {fault:?}")?;
        }
    }
    if differ == 0 {
        println!(rt; "{ROUNDS} rounds, all reports and transcripts agree")?;
    }
    Ok(())
}

fn main(rt: HostRuntime) -> io::Result<()> {
    let alloc = rt.alloc();
    let mut files = FolderLibrary::new(&rt);
    contexts_meet(&rt, alloc, &mut files)?;
    turns_are_taken(&rt, alloc, &mut files)?;
    match ran(&rt, alloc, &mut files, "trace", "loop.sl", &OpenGate) {
        Ok(alone) => rounds_agree(&rt, alloc, &mut files, whole_log(&alone.report)),
        Err(fault) => println!(rt; "{fault:?}"),
    }
}
