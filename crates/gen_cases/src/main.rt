//! Makes the workload of the number on each line of the input, and prints its plan and its sources: of each source the length,
//! the SHA-256 digest, and the first and the last two lines. What it must print for the lines of `stdin` stands in `stdout`, made
//! by a script from the description of the workload, and not by this program.
#![tactic(auto)]

use hex::encode;
use pd_gen::{Generated, make};
use pd_plan::{BindingSpec, Filter, Language, Plan, Script};
use pd_sections::Source;
use pd_values::Tag;
use sha2::{Digest, Sha256};
use std::io::{self, BufRead, BufReader};

/// The word of a language.
fn word_of(language: Language) -> &'static str {
    match language {
        Language::Sl => "sl",
        Language::Pl0 => "pl0",
    }
}

/// The name of a tag; of those that the workload doesn't have, `other`.
fn tag_name(tag: Tag) -> &'static str {
    match tag {
        Tag::Root => "Root",
        Tag::Statement => "Statement",
        _ => "other",
    }
}

/// Prints a filter: its tags, and how long its other lists are together.
fn print_filter(rt: &HostRuntime, filter: &Filter) -> io::Result<()> {
    print!(rt; "observe")?;
    for tag in filter.tags.as_slice() {
        print!(rt; " {}", tag_name(*tag))?;
    }
    let empty = filter.not_tags.is_empty()
        && filter.sources.is_empty()
        && filter.lines.is_empty()
        && filter.roots.is_empty();
    println!(rt; "{}", if empty { "" } else { " and more" })
}

/// Prints a session: what it attaches before the run, and how many actions and answers it has.
fn print_session(rt: &HostRuntime, session: &Script) -> io::Result<()> {
    print!(rt; "before")?;
    for binding in session.before.as_slice() {
        print!(rt; " {binding}")?;
    }
    let actions = session.actions.as_slice().len();
    let answers = session.answers.as_slice().len();
    println!(rt; " actions {actions} answers {answers}")
}

/// Prints what a plan has, a line each.
fn print_plan(rt: &HostRuntime, plan: &Plan) -> io::Result<()> {
    for spec in plan.sources.as_slice() {
        println!(rt; "{} {}", word_of(spec.language), spec.name.as_str())?;
    }
    for spec in plan.exports.as_slice() {
        let (name, item) = (spec.name.as_str(), spec.item.as_str());
        println!(rt; "export {name} of {} {item}", spec.source)?;
    }
    for spec in plan.contexts.as_slice() {
        println!(rt;
            "context {} {} fuel {}",
            spec.source,
            spec.entry.as_str(),
            spec.fuel
        )?;
    }
    for spec in plan.bindings.as_slice() {
        match spec {
            BindingSpec::Observe(filter) => print_filter(rt, filter)?,
            _ => println!(rt; "no observer")?,
        }
    }
    for session in plan.sessions.as_slice() {
        print_session(rt, session)?;
    }
    Ok(())
}

/// Prints the first line of a text and its last two.
fn print_ends(rt: &HostRuntime, text: &str) -> io::Result<()> {
    let inner = text.lines().count().saturating_sub(2);
    for (at, line) in text.lines().enumerate() {
        if at == 0 || at >= inner {
            println!(rt; "{line}")?;
        }
    }
    Ok(())
}

/// Prints a source.
fn print_source(rt: &HostRuntime, source: &Source) -> io::Result<()> {
    let bytes = source.bytes();
    let digest = encode(rt.alloc(), Sha256::digest(bytes))?;
    println!(rt;
        "{}: {} bytes, {}",
        source.name(),
        bytes.len(),
        digest.as_str()
    )?;
    print_ends(rt, std::str::from_utf8(bytes).unwrap_or(""))
}

fn main(rt: HostRuntime) -> io::Result<()> {
    let alloc = rt.alloc();
    for line in BufReader::new(alloc, rt.reader())?.lines(alloc) {
        let line = line?;
        let Ok(number) = line.parse::<u32>() else {
            println!(rt; "no number")?;
            continue;
        };
        let Generated { plan, sources } = make(alloc, number)?;
        println!(rt; "workload {number}")?;
        print_plan(&rt, &plan)?;
        for source in sources.as_slice() {
            print_source(&rt, source)?;
        }
    }
    Ok(())
}
