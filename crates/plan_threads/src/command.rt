//! A command over files.
use crate::fault::Fault;
use pd_outside::{Gate, Library, MemorySink};
use pd_run::Report;
use pd_top::{Outcome, run};
use std::alloc::Global;
use std::thread::Threads;

/// The most bytes that a transcript may have.
const MOST_BYTES: u32 = 100_000;

/// What a command came to.
#[derive(Drop)]
pub struct Finished {
    pub report: Report,
    transcript: MemorySink,
}

impl Finished {
    /// The transcript; `None` where it isn't UTF-8.
    pub fn transcript(&self) -> Option<&str> {
        str::from_utf8(self.transcript.bytes()).ok()
    }
}

/// Does the command of this word on the file of this name.
pub fn ran<R: Threads + Sync, L: Library, G: Gate>(
    rt: &R,
    alloc: Global,
    files: &mut L,
    word: &str,
    file: &str,
    gate: &G,
) -> Result<Finished, Fault> {
    let words = vec![in alloc;
        String::from_str(alloc, word)?,
        String::from_str(alloc, file)?,
    ]?;
    let mut transcript = MemorySink::new(alloc, MOST_BYTES, Vec::new(alloc))?;
    match run(rt, alloc, words.as_slice(), files, &mut transcript, gate) {
        Outcome::Ran(report) => Ok(Finished { report, transcript }),
        Outcome::Memory => Err(Fault::Memory),
        _ => Err(Fault::NoReport),
    }
}
