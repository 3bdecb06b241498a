//! Lists the nodes of the program of each plan that the input names, whose files lie where the program runs: the number of
//! each node, its kind, its tags, the place where it starts, and the first line of its text. What it must print for the
//! lines of `stdin` stands in `stdout`, made by a script from the grammars and the rules of nodes, not by this program.
#![tactic(auto)]

ghost use Rattle.std.specs.Prelude.{◌<◌, length};

mod kinds;

use crate::kinds::print_kind;
use case_plans::{Loaded, load_files};
use pd_sections::Source;
use pd_tree::Program;
use pd_values::{NodeId, Tag};
use std::io::{self, BufRead, BufReader};

/// The name of a tag.
fn tag_name(tag: Tag) -> &'static str {
    match tag {
        Tag::Statement => "Statement",
        Tag::Call => "Call",
        Tag::Root => "Root",
        Tag::RootBody => "RootBody",
        Tag::Expression => "Expression",
        Tag::ReadVariable => "ReadVariable",
        Tag::WriteVariable => "WriteVariable",
        Tag::AlwaysHalt => "AlwaysHalt",
    }
}

/// All tags, in the order in which they are printed.
const TAGS: [Tag; 8] = [
    Tag::Root,
    Tag::RootBody,
    Tag::Statement,
    Tag::AlwaysHalt,
    Tag::Expression,
    Tag::Call,
    Tag::ReadVariable,
    Tag::WriteVariable,
];

/// Prints these tags, with a blank between them.
fn print_tags(rt: &HostRuntime, tags: &[Tag]) -> io::Result<()> {
    let mut between = "";
    for tag in &TAGS {
        if tags.contains(tag) {
            print!(rt; "{between}{}", tag_name(*tag))?;
            between = " ";
        }
    }
    Ok(())
}

/// The first line of so many bytes of a source from this one on.
fn first_line(source: &Source, start: u32, len: u32) -> &str {
    let end = start.saturating_add(len) as usize;
    let Some(bytes) = source.bytes().get(start as usize..end) else {
        return "?";
    };
    let text = std::str::from_utf8(bytes).unwrap_or("?");
    match text.split_once('\n') {
        Some((line, _)) => line,
        None => text,
    }
}

/// Prints a node.
fn print_node(
    rt: &HostRuntime,
    program: &Program,
    sources: &[Source],
    node: NodeId,
) -> io::Result<()>
    requires { node < length program.now.nodes }
{
    print!(rt; "{} ", node.0)?;
    print_kind(rt, program.kind(node))?;
    print!(rt; " [")?;
    print_tags(rt, program.tags(node))?;
    let section = program.section(node);
    let (line, column) = (program.line(node), program.column(node));
    print!(rt; "] {}:{line}:{column}", section.source)?;
    match sources.get(section.source as usize) {
        Some(source) => println!(rt; " {}", first_line(source, section.start, section.len)),
        None => println!(rt; ""),
    }
}

/// Prints all nodes of a program.
fn print_nodes(rt: &HostRuntime, it: &Loaded) -> io::Result<()> {
    for n in 0..it.program.nodes() {
        print_node(rt, &it.program, it.sources.as_slice(), NodeId(n))?;
    }
    Ok(())
}

fn main(rt: HostRuntime) -> io::Result<()> {
    let alloc = rt.alloc();
    for line in BufReader::new(alloc, rt.reader())?.lines(alloc) {
        let line = line?;
        println!(rt; "$ {}", line.as_str())?;
        match load_files(&rt, alloc, line.as_str())? {
            Some(it) => print_nodes(&rt, &it)?,
            None => println!(rt; "no program")?,
        }
    }
    Ok(())
}
