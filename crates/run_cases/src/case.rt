//! The lines of the input.
use pd_plan::Language;
use std::alloc::{AllocError, Global};

/// What is asked for at the event of a number.
#[derive(Clone, Copy, Drop)]
pub enum Answer {
    Reenter(u32),
    Return(u32, i64),
    Kill,
}

/// An answer, and the number of the event that it is for.
#[derive(Clone, Copy, Drop)]
pub struct Asked {
    pub event: u32,
    pub answer: Answer,
}

/// A line: the language, the fuel, the answers by the numbers of events, and the source.
#[derive(Drop)]
pub struct Case {
    pub language: Language,
    pub fuel: u32,
    pub asked: Vec<Asked>,
    /// Whether the events aren't printed.
    pub quiet: bool,
    /// The text of a condition that is tested wherever a statement begins.
    pub condition: Option<Vec<u8>>,
    pub source: Vec<u8>,
}

/// The case of a line; `None` where it is none.
pub fn case_of(alloc: Global, line: &str) -> Result<Option<Case>, AllocError> {
    let Some((language, rest)) = line.split_once(' ') else {
        return Ok(None);
    };
    let Some((fuel, rest)) = rest.split_once(' ') else {
        return Ok(None);
    };
    let Some((answers, source)) = rest.split_once(' ') else {
        return Ok(None);
    };
    let language = match language {
        "sl" => Language::Sl,
        "pl0" => Language::Pl0,
        _ => return Ok(None),
    };
    let Ok(fuel) = fuel.parse::<u32>() else {
        return Ok(None);
    };
    let (condition, source) = condition_of(alloc, answers, source)?;
    Ok(Some(Case {
        language,
        fuel,
        asked: answers_of(alloc, answers)?,
        quiet: answers == "quiet" || condition.is_some(),
        condition,
        source: meant(alloc, source)?,
    }))
}

/// The condition of a line, which stands before the source as a line of its own, and the source.
fn condition_of<'a>(
    alloc: Global,
    answers: &str,
    source: &'a str,
) -> Result<(Option<Vec<u8>>, &'a str), AllocError> {
    if answers != "test" {
        return Ok((None, source));
    }
    match source.split_once("\\n") {
        Some((condition, rest)) => Ok((Some(meant(alloc, condition)?), rest)),
        None => Ok((None, source)),
    }
}

/// The answers that these words ask for; a word that asks for none is left out.
fn answers_of(alloc: Global, words: &str) -> Result<Vec<Asked>, AllocError> {
    let mut asked = Vec::new(alloc);
    for word in words.split(',') {
        if let Some(answer) = answer_of(word) {
            asked.push(answer)?;
        }
    }
    Ok(asked)
}

/// The answer of a word as `18:return:1:9`.
fn answer_of(word: &str) -> Option<Asked> {
    let (event, word) = word.split_once(':')?;
    let event = event.parse::<u32>().ok()?;
    let answer = kind_of(word)?;
    Some(Asked { event, answer })
}

fn kind_of(word: &str) -> Option<Answer> {
    if word == "kill" {
        return Some(Answer::Kill);
    }
    let (name, rest) = word.split_once(':')?;
    match name {
        "reenter" => Some(Answer::Reenter(rest.parse::<u32>().ok()?)),
        "return" => {
            let (frame, value) = rest.split_once(':')?;
            let frame = frame.parse::<u32>().ok()?;
            Some(Answer::Return(frame, value.parse::<i64>().ok()?))
        }
        _ => None,
    }
}

/// The bytes that the source of a line means.
pub fn meant(alloc: Global, source: &str) -> Result<Vec<u8>, AllocError> {
    let mut bytes = Vec::new(alloc);
    let mut escaped = false;
    for byte in source.as_bytes() {
        if !escaped && *byte == b'\\' {
            escaped = true;
            continue;
        }
        bytes.push(if escaped && *byte == b'n' {
            b'\n'
        } else {
            *byte
        })?;
        escaped = false;
    }
    Ok(bytes)
}
