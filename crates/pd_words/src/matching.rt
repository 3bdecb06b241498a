//! What a command of `clap` finds in words.
ghost use Rattle.std.specs.Prelude.{◌≡◌, ◌≤◌, option_map, IfOk, IfErr, IfSome, Some, true};
ghost use Rattle.clap.specs.Words.{app_of, found_of, rows_of, first_of, is_simple_and_free};
ghost use Rattle.pd_words.specs.Words.{texts, matched, text_in, is_given, number_in, within, number_of, number_up_to, StopsBy};

use crate::asked::WordFault;
use clap::error::ErrorKind;
use clap::{ArgMatches, Command};
use pd_values::{Stop, Text};
use std::alloc::{AllocError, Global};

/// What the command finds in these words, of which the first is its name.
pub(crate) fn parse<'a>(
    command: Command<'a>,
    words: &'a [String],
) -> Result<ArgMatches<'a>, Stop<WordFault>>
    requires { is_simple_and_free (app_of command) ≡ true }
    ensures taken { IfOk result (λ m. matched (app_of command.entry) (texts words.entry.now) ≡ Some (rows_of (found_of m))) }
    ensures refused { IfErr result (StopsBy (matched (app_of command.entry) (texts words.entry.now))) }
{
    match command.try_get_matches_from(words) {
        Ok(matches) => Ok(matches),
        Err(error) => match error.kind() {
            ErrorKind::OutOfMemory => Err(Stop::Memory),
            _ => Err(Stop::Refused(WordFault::Refused)),
        },
    }
}

// The first value of an argument.
fn first<'a>(matches: &ArgMatches<'a>, id: &str) -> Option<&'a str>
    ensures { option_map (λ text. text.now) result ≡ first_of id.now (rows_of (found_of matches.now)) }
{
    matches.get_str(id)
}

/// The text of an argument; empty where it has none.
pub(crate) fn text_in(alloc: Global, matches: &ArgMatches, id: &str) -> Result<Text, AllocError>
    ensures { IfOk result (λ text. text ≡ text_in id.now (rows_of (found_of matches.now))) }
{
    match first(matches, id) {
        None => Ok(Text::of(String::new(alloc))),
        Some(text) => Ok(Text::of(String::from_str(alloc, text)?)),
    }
}

/// Whether an option without a value was given.
pub(crate) fn is_given(matches: &ArgMatches, id: &str) -> bool
    ensures { result ≡ is_given id.now (rows_of (found_of matches.now)) }
{
    match first(matches, id) {
        None => false,
        Some(text) => text == "true",
    }
}

// The number that a text is, if it is one of 32 bits.
fn number_in(text: &str) -> Option<u32>
    ensures { result ≡ number_in text.now }
{
    match text.parse::<u32>() {
        Ok(number) => Some(number),
        Err(_) => None,
    }
}

// The number, if it is one from `least` to `most`.
fn within(number: u32, least: u32, most: u32) -> Option<u32>
    ensures number { result ≡ within least most number }
    ensures within { IfSome result (λ n. (least ≤ n) × (n ≤ most)) }
{
    if least <= number && number <= most {
        Some(number)
    } else {
        None
    }
}

/// The number of an argument, where it has one from `least` to `most`.
pub(crate) fn number_of(matches: &ArgMatches, id: &str, least: u32, most: u32) -> Option<u32>
    ensures number { result ≡ number_of least most (first_of id.now (rows_of (found_of matches.now))) }
    ensures within { IfSome result (λ n. (least ≤ n) × (n ≤ most)) }
{
    match first(matches, id) {
        None => None,
        Some(text) => match number_in(text) {
            None => None,
            Some(number) => within(number, least, most),
        },
    }
}

/// The number up to `most` of an argument that must be there: where the command takes the words, it has one.
pub(crate) fn number_up_to(matches: &ArgMatches, id: &str, most: u32) -> u32
    ensures number { result ≡ number_up_to most id.now (rows_of (found_of matches.now)) }
    ensures within { result ≤ most }
{
    number_of(matches, id, 0, most).unwrap_or(0)
}
