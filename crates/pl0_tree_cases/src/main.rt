//! Says of each line of the input, which is a PL/0 source with `\n`, `\r`, `\t` and `\\` for what they mean, what its tree is, or
//! else the first broken rule and its place. What it must print for the lines of `stdin` stands in `stdout`, made from the
//! grammar and from the rules of nodes and scopes, not by this program.
#![tactic(auto)]

use pd_pl0_lex::lex;
use pd_pl0_parse::parse;
use pd_sections::{MOST_BYTES, Refusal, Source, Stop};
use pd_tree::{Addition, Kind, Meaning, Operator, Tree};
use std::alloc::{AllocError, Global};
use std::io::{self, BufRead, BufReader};

/// The most nodes that a source may have here; it is small, so that a short source has too many.
const ROOM: u32 = 100;

/// The bytes that a line means.
fn meant(alloc: Global, line: &[u8]) -> Result<Vec<u8>, AllocError> {
    let mut bytes = Vec::new(alloc);
    let mut escaped = false;
    for byte in line {
        if !escaped && *byte == b'\\' {
            escaped = true;
            continue;
        }
        bytes.push(match *byte {
            b'n' if escaped => b'\n',
            b'r' if escaped => b'\r',
            b't' if escaped => b'\t',
            other => other,
        })?;
        escaped = false;
    }
    Ok(bytes)
}

/// The tree of a source with these bytes.
fn tree_of(alloc: Global, bytes: Vec<u8>) -> Result<Option<Tree>, Stop<Refusal>> {
    if bytes.len() > MOST_BYTES {
        return Ok(None);
    }
    let Ok(source) = Source::new(alloc, String::new(alloc), bytes) else {
        return Ok(None);
    };
    let tokens = lex(alloc, &source)?;
    Ok(Some(parse(alloc, &source, 0, &tokens, ROOM)?))
}

/// The sign of an operator.
fn sign_of(operator: Operator) -> &'static str {
    match operator {
        Operator::Equal => "=",
        Operator::NotEqual => "#",
        Operator::Less => "<",
        Operator::LessEq => "<=",
        Operator::Greater => ">",
        Operator::GreaterEq => ">=",
        Operator::Add => "+",
        Operator::Sub => "-",
        Operator::Mul => "*",
        Operator::Div => "/",
    }
}

/// The word for a kind that has no name and no value.
fn word_of(kind: &Kind) -> &'static str {
    match kind {
        Kind::PlBody => "body",
        Kind::PlEmpty => "empty",
        Kind::PlBegin => "begin",
        Kind::PlIf => "if",
        Kind::PlWhile => "while",
        Kind::PlWrite => "write",
        Kind::PlOdd => "odd",
        Kind::PlBinary(operator) => sign_of(*operator),
        Kind::PlPlus => "plus",
        Kind::PlMinus => "minus",
        _ => "?",
    }
}

/// Prints a kind with its names or its value.
fn print_kind(rt: &HostRuntime, kind: &Kind) -> io::Result<()> {
    match kind {
        Kind::PlProcedure { name, variables } => {
            print!(rt; "procedure {}", name.as_str())?;
            for variable in variables.as_slice() {
                print!(rt; ",{}", variable.as_str())?;
            }
            Ok(())
        }
        Kind::PlAssign(name) => print!(rt; "assign {}", name.as_str()),
        Kind::PlCall(name) => print!(rt; "call {}", name.as_str()),
        Kind::PlName(name) => print!(rt; "name {}", name.as_str()),
        Kind::PlNumber(value) => print!(rt; "number {value}"),
        _ => print!(rt; "{}", word_of(kind)),
    }
}

/// Prints a node: its number, its kind, its first byte and its length, its line and column, the number of its parts, the
/// block and the slot of the variable that its name means, and the constants of its block.
fn print_node(rt: &HostRuntime, number: usize, node: &Addition) -> io::Result<()> {
    print!(rt; "{number} ")?;
    print_kind(rt, &node.kind)?;
    print!(rt; " {}+{}", node.section.start, node.section.len)?;
    print!(rt; " {}:{} {}", node.line, node.column, node.children)?;
    match node.meaning {
        Meaning::Local { up, slot } => print!(rt; " up {up} slot {slot}")?,
        Meaning::Nothing => print!(rt; " -")?,
        Meaning::Item(_) => print!(rt; " ?")?,
    }
    for constant in node.constants.as_slice() {
        print!(rt; " const {}", constant.as_str())?;
    }
    println!(rt;)
}

/// Prints the nodes of a tree, and how many they are.
fn print_tree(rt: &HostRuntime, tree: &Tree) -> io::Result<()> {
    let nodes = tree.additions();
    println!(rt; "{} nodes", nodes.len())?;
    for (number, node) in nodes.iter().enumerate() {
        print_node(rt, number, node)?;
    }
    Ok(())
}

/// Prints the answer for a line.
fn print_answer(rt: &HostRuntime, line: &[u8]) -> io::Result<()> {
    let alloc = rt.alloc();
    match tree_of(alloc, meant(alloc, line)?) {
        Ok(Some(tree)) => print_tree(rt, &tree),
        Ok(None) => println!(rt; "no source"),
        Err(Stop::Refused(refusal)) => println!(rt; "{:?} at {}", refusal.rule, refusal.at),
        Err(Stop::Memory) => println!(rt; "out of memory"),
    }
}

fn main(rt: HostRuntime) -> io::Result<()> {
    let alloc = rt.alloc();
    let lines = BufReader::new(alloc, rt.reader())?.split(alloc, b'\n');
    for (i, line) in lines.enumerate() {
        print!(rt; "case {i}: ")?;
        print_answer(&rt, line?.as_slice())?;
    }
    Ok(())
}
