//! The reading of words.
ghost use Rattle.std.specs.Prelude.{◌≡◌, ◌≤◌, IfOk, IfErr, IfSome, Some, Ok};
ghost use Rattle.pd_words.specs.Words.{texts, file_of, run_of, gen_of, binding_of, command_named, command_of, IsFuel, HasNumbersInRange, StopsBy, StopsCommand, StopsWords};

use crate::asked::{BindingWords, Command, RunWords, WordFault};
use crate::commands::{binding_command, file_command, gen_command, run_command};
use crate::matching::{is_given, number_of, number_up_to, parse, text_in};
use pd_values::{Stop, Text};
use std::alloc::Global;

// The file of the command of this name, which takes just that.
fn read_file<'a>(alloc: Global, name: &'a str, words: &'a [String]) -> Result<Text, Stop<WordFault>>
    ensures asked { IfOk result (λ file. file_of name.entry.now (texts words.entry.now) ≡ Some file) }
    ensures refused { IfErr result (StopsBy (file_of name.entry.now (texts words.entry.now))) }
{
    let matches = parse(file_command(alloc, name)?, words)?;
    Ok(text_in(alloc, &matches, "file")?)
}

// The plan and the options of `run`.
fn read_run(alloc: Global, words: &[String]) -> Result<RunWords, Stop<WordFault>>
    ensures asked { IfOk result (λ run. run_of (texts words.now) ≡ Some run) }
    ensures fuel { IfOk result (λ run. IfSome run.fuel IsFuel) }
    ensures refused { IfErr result (StopsBy (run_of (texts words.now))) }
{
    let matches = parse(run_command(alloc)?, words)?;
    Ok(RunWords {
        plan: text_in(alloc, &matches, "file")?,
        merged: is_given(&matches, "merged"),
        json: is_given(&matches, "json"),
        fuel: number_of(&matches, "fuel", 1, 16_777_216),
    })
}

// The number of `gen`.
fn read_gen(alloc: Global, words: &[String]) -> Result<u32, Stop<WordFault>>
    ensures asked { IfOk result (λ number. gen_of (texts words.now) ≡ Some number) }
    ensures within { IfOk result (λ number. number ≤ 999999) }
    ensures refused { IfErr result (StopsBy (gen_of (texts words.now))) }
{
    let matches = parse(gen_command(alloc)?, words)?;
    Ok(number_up_to(&matches, "number", 999_999))
}

// The plan, the binding and the fuel of the command of this name.
fn read_binding<'a>(
    alloc: Global,
    name: &'a str,
    words: &'a [String],
) -> Result<BindingWords, Stop<WordFault>>
    ensures asked { IfOk result (λ asked. binding_of name.entry.now (texts words.entry.now) ≡ Some asked) }
    ensures within { IfOk result (λ asked. asked.binding ≤ 4095) }
    ensures fuel { IfOk result (λ asked. IfSome asked.fuel IsFuel) }
    ensures refused { IfErr result (StopsBy (binding_of name.entry.now (texts words.entry.now))) }
{
    let matches = parse(binding_command(alloc, name)?, words)?;
    Ok(BindingWords {
        plan: text_in(alloc, &matches, "file")?,
        binding: number_up_to(&matches, "binding", 4_095),
        fuel: number_of(&matches, "fuel", 1, 16_777_216),
    })
}

// The command of this name; the words begin with it.
fn named(alloc: Global, name: &str, words: &[String]) -> Result<Command, Stop<WordFault>>
    ensures asked { IfOk result (λ command. command_named name.now (texts words.now) ≡ Ok command) }
    ensures numbers { IfOk result HasNumbersInRange }
    ensures refused { IfErr result (StopsCommand (command_named name.now (texts words.now))) }
{
    match name {
        "trace" => Ok(Command::Trace(read_file(alloc, "trace", words)?)),
        "run" => Ok(Command::Run(read_run(alloc, words)?)),
        "check" => Ok(Command::Check(read_file(alloc, "check", words)?)),
        "gen" => Ok(Command::Gen(read_gen(alloc, words)?)),
        "coverage" => Ok(Command::Coverage(read_binding(alloc, "coverage", words)?)),
        "calltree" => Ok(Command::CallTree(read_binding(alloc, "calltree", words)?)),
        _ => Err(Stop::Refused(WordFault::UnknownCommand)),
    }
}

/// What the words ask for. An `Err` tells why they are no command, or that memory ran out.
pub fn read_words(alloc: Global, words: &[String]) -> Result<Command, Stop<WordFault>>
    ensures asked { IfOk result (λ command. command_of (texts words.now) ≡ Ok command) }
    ensures numbers { IfOk result HasNumbersInRange }
    ensures refused { IfErr result (StopsWords (texts words.now)) }
{
    match words {
        [] => Err(Stop::Refused(WordFault::NoCommand)),
        [name, ..] => named(alloc, name.as_str(), words),
    }
}
