//! Conditions: what their texts are, and what they come to.
use pd_condition::{Truth, holds, read, resolve};
use pd_machine::{Event, EventKind, Scene};
use pd_plan::{Condition, Op};
use pd_sections::{MOST_BYTES, Refusal, Stop};
use pd_tree::Program;
use pd_values::{Tag, Text};
use std::alloc::{AllocError, Global};
use std::fmt::Write;

/// What reading a text gave.
#[derive(Drop)]
pub enum Reading {
    Condition(Condition),
    Refused(Refusal),
    /// The bytes are no UTF-8, or too many.
    NoText,
}

/// The condition that these bytes are.
pub fn reading_of(alloc: Global, bytes: &[u8]) -> Result<Reading, AllocError> {
    let Ok(chars) = std::str::from_utf8(bytes) else {
        return Ok(Reading::NoText);
    };
    if chars.len() > MOST_BYTES {
        return Ok(Reading::NoText);
    }
    let text = Text::of(String::from_str(alloc, chars)?);
    match read(alloc, &text) {
        Ok(condition) => Ok(Reading::Condition(condition)),
        Err(Stop::Refused(refusal)) => Ok(Reading::Refused(refusal)),
        Err(Stop::Memory) => Err(AllocError),
    }
}

/// Writes what reading gave: a condition with each operator before its two sides, or the refusal.
pub fn write_reading(text: &mut String, reading: &Reading) -> Result<(), AllocError> {
    match reading {
        Reading::Condition(condition) => write_condition(text, condition)?,
        Reading::Refused(refusal) => write!(text, "{:?} at {}", refusal.rule, refusal.at)?,
        Reading::NoText => text.push_str("no text")?,
    }
    Ok(())
}

fn write_condition(text: &mut String, condition: &Condition) -> Result<(), AllocError> {
    match condition {
        Condition::Number(number) => write!(text, "{number}")?,
        Condition::Text(held) => write!(text, "\"{}\"", held.as_str())?,
        Condition::Name(name) => text.push_str(name.as_str())?,
        Condition::Binary(op, left, right) => {
            write!(text, "({} ", sign_of(*op))?;
            write_condition(text, left.get())?;
            text.push(' ')?;
            write_condition(text, right.get())?;
            text.push(')')?;
        }
    }
    Ok(())
}

fn sign_of(op: Op) -> &'static str {
    match op {
        Op::Or => "||",
        Op::And => "&&",
        Op::Equal => "==",
        Op::NotEqual => "!=",
        Op::Less => "<",
        Op::LessEq => "<=",
        Op::Greater => ">",
        Op::GreaterEq => ">=",
        Op::Add => "+",
        Op::Sub => "-",
        Op::Mul => "*",
        Op::Div => "/",
    }
}

/// Writes what a condition comes to where a statement begins, with the statement's line.
pub fn write_truth(
    text: &mut String,
    program: &Program,
    condition: &Condition,
    event: &Event,
    scene: &Scene<'_>,
) -> Result<(), AllocError> {
    let node = event.node;
    if !matches!(&event.kind, EventKind::Enter) || node.0 >= program.nodes() {
        return Ok(());
    }
    if !program.has(node, Tag::Statement) {
        return Ok(());
    }
    let resolved = resolve(*text.allocator(), condition, program, node)?;
    let truth = match holds(&resolved, scene) {
        Truth::True => "true",
        Truth::False => "false",
        Truth::Cannot => "cannot",
    };
    writeln!(text, "  {} {truth}", program.line(node))?;
    Ok(())
}
