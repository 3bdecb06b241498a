//! Runs the program of each line of the input, and prints all of its run: the events with their frames, the output, the
//! end, the fuel used. A line has a language (`sl` or `pl0`), the fuel, answers to events, and the source, with one space
//! between. Answers are `-`, or some as `18:reenter:0`, `18:return:1:9` and `25:kill`, with `,` between, or `quiet`, which leaves the events out, or
//! `test`: then the source has a condition as a line of its own before it, and what the condition comes to is printed
//! wherever a statement begins, with the statement's line, in place of the events. In the source `\n`
//! and `\\` mean what they say. A line `condition TEXT` has the text of a condition, which is printed as a tree, or its
//! refusal. What it must print for the lines of `stdin` stands in `stdout`, made by a separate
//! interpreter of the rules, not by this program.
#![tactic(auto)]

mod case;
mod conditions;
mod loading;
mod recorder;

use crate::case::{Case, case_of, meant};
use crate::conditions::{Reading, reading_of, write_reading};
use crate::loading::program_of;
use crate::recorder::{Recorder, write_value};
use pd_eval::{Ran, run};
use pd_plan::{Condition, Language};
use pd_tree::Program;
use pd_values::End;
use std::alloc::AllocError;
use std::io::{self, BufRead, BufReader};

/// The most fuel of a run.
const MOST_FUEL: u32 = 16_777_216;

/// Prints how a run ended.
fn print_end(rt: &HostRuntime, end: &End) -> io::Result<()> {
    match end {
        End::Done(value) => {
            let mut text = String::new(rt.alloc());
            write_value(&mut text, value)?;
            println!(rt; "done {}", text.as_str())
        }
        End::Faulted(fault, node) => println!(rt; "{:?} at {}", fault, node.0),
        End::Exhausted => println!(rt; "exhausted"),
        End::Killed => println!(rt; "killed"),
    }
}

/// Prints a run.
fn print_run(rt: &HostRuntime, ran: &Ran, told: &str) -> io::Result<()> {
    print!(rt; "{told}")?;
    print!(rt; "  {} events, {} fuel, ", ran.events, ran.used)?;
    print_end(rt, &ran.end)?;
    for line in ran.output.as_str().split('\n') {
        if !line.is_empty() {
            println!(rt; "  | {line}")?;
        }
    }
    Ok(())
}

/// The item to run: the last function of the name `main`, or PL/0's main block, which is the first item after
/// `println`.
fn entry_of(program: &Program, language: Language) -> u32 {
    if language == Language::Pl0 {
        return 1;
    }
    let mut entry = 0;
    let mut item: u32 = 0;
    for name in program.names() {
        if name.as_str() == "main" {
            entry = item;
        }
        item = item.saturating_add(1);
    }
    entry
}

/// Runs the program of a line.
fn run_case<'a>(
    rt: &HostRuntime,
    case: &'a Case,
    program: &'a Program,
    condition: Option<&'a Condition>,
) -> io::Result<()> {
    let alloc = rt.alloc();
    let fuel = case.fuel.min(MOST_FUEL);
    let mut recorder = Recorder::new(alloc, program, case, condition);
    let ran = run(
        alloc,
        program,
        entry_of(program, case.language),
        fuel,
        &mut recorder,
    )?;
    if condition.is_some() {
        return print!(rt; "{}", recorder.told());
    }
    print_run(rt, &ran, recorder.told())
}

/// Prints the condition that a text is, or its refusal.
fn print_reading(rt: &HostRuntime, reading: &Reading) -> io::Result<()> {
    let mut text = String::new(rt.alloc());
    write_reading(&mut text, reading)?;
    println!(rt; "  {}", text.as_str())
}

/// Runs the program of a line, with its condition, if it has one.
fn print_case(rt: &HostRuntime, case: &Case, program: &Program) -> io::Result<()> {
    let Some(bytes) = &case.condition else {
        return run_case(rt, case, program, None);
    };
    let reading = reading_of(rt.alloc(), bytes.as_slice())?;
    match &reading {
        Reading::Condition(condition) => run_case(rt, case, program, Some(condition)),
        _ => print_reading(rt, &reading),
    }
}

fn main(rt: HostRuntime) -> io::Result<()> {
    let alloc = rt.alloc();
    let lines = BufReader::new(alloc, rt.reader())?.lines(alloc);
    for (i, line) in lines.enumerate() {
        println!(rt; "case {i}")?;
        let line = line?;
        if let Some(text) = line.strip_prefix("condition ") {
            print_reading(&rt, &reading_of(alloc, meant(alloc, text)?.as_slice())?)?;
            continue;
        }
        let Some(case) = case_of(alloc, line.as_str())? else {
            println!(rt; "  no case")?;
            continue;
        };
        match program_of(alloc, &case)? {
            Some(program) => print_case(&rt, &case, &program)?,
            None => println!(rt; "  no program")?,
        }
    }
    Ok(())
}
