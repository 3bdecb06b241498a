//! The commands of `clap`: which words each one takes.
ghost use Rattle.std.specs.Prelude.{◌≡◌, IfOk, false, codes};
ghost use Rattle.clap.specs.Words.{app_of, rule_of};
ghost use Rattle.pd_words.specs.Words.{command, file_rule, flag_rule, fuel_rule, number_rule, file_app, run_app, gen_app, binding_app};

use clap::{Arg, ArgAction, Command, value_parser};
use std::alloc::{AllocError, Global};

// The one file of a command.
fn file<'a>(alloc: Global) -> Arg<'a>
    ensures rule { rule_of result ≡ file_rule }
    ensures local { result.global ≡ false }
{
    Arg::new(alloc, "file")
        .required(true)
        .action(ArgAction::Set)
}

// An option without a value.
fn flag<'a>(alloc: Global, name: &'a str) -> Arg<'a>
    ensures rule { rule_of result ≡ flag_rule name.entry.now }
    ensures local { result.global ≡ false }
{
    Arg::new(alloc, name).long(name).action(ArgAction::SetTrue)
}

// The option with the fuel.
fn fuel<'a>(alloc: Global) -> Arg<'a>
    ensures rule { rule_of result ≡ fuel_rule }
    ensures local { result.global ≡ false }
{
    Arg::new(alloc, "fuel")
        .long("fuel")
        .action(ArgAction::Set)
        .value_parser(value_parser!(u32).range(1..=16_777_216))
}

// The number of `gen`.
fn number<'a>(alloc: Global) -> Arg<'a>
    ensures rule { rule_of result ≡ number_rule (codes "number") 999999 }
    ensures local { result.global ≡ false }
{
    Arg::new(alloc, "number")
        .required(true)
        .action(ArgAction::Set)
        .value_parser(value_parser!(u32).range(0..=999_999))
}

// The number of a binding.
fn binding<'a>(alloc: Global) -> Arg<'a>
    ensures rule { rule_of result ≡ number_rule (codes "binding") 4095 }
    ensures local { result.global ≡ false }
{
    Arg::new(alloc, "binding")
        .required(true)
        .action(ArgAction::Set)
        .value_parser(value_parser!(u32).range(0..=4_095))
}

// A command of this name without a help option.
fn command<'a>(alloc: Global, name: &'a str) -> Command<'a>
    ensures { app_of result ≡ command name.entry.now }
{
    Command::new(alloc, name).disable_help_flag(true)
}

/// The command of this name that takes one file and no option.
pub(crate) fn file_command<'a>(alloc: Global, name: &'a str) -> Result<Command<'a>, AllocError>
    ensures { IfOk result (λ c. app_of c ≡ file_app name.entry.now) }
{
    command(alloc, name).arg(file(alloc))
}

/// The command `run`.
pub(crate) fn run_command<'a>(alloc: Global) -> Result<Command<'a>, AllocError>
    ensures { IfOk result (λ c. app_of c ≡ run_app) }
{
    command(alloc, "run")
        .arg(file(alloc))?
        .arg(flag(alloc, "merged"))?
        .arg(flag(alloc, "json"))?
        .arg(fuel(alloc))
}

/// The command `gen`.
pub(crate) fn gen_command<'a>(alloc: Global) -> Result<Command<'a>, AllocError>
    ensures { IfOk result (λ c. app_of c ≡ gen_app) }
{
    command(alloc, "gen").arg(number(alloc))
}

/// The command of this name on one binding of a plan.
pub(crate) fn binding_command<'a>(alloc: Global, name: &'a str) -> Result<Command<'a>, AllocError>
    ensures { IfOk result (λ c. app_of c ≡ binding_app name.entry.now) }
{
    command(alloc, name)
        .arg(file(alloc))?
        .arg(binding(alloc))?
        .arg(fuel(alloc))
}
