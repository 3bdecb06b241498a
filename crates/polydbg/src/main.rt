//! polydbg: an interpreter host whose runs can be watched, and a scripted debugger for it.
#![tactic(auto)]

use pd_outside::{FolderLibrary, OpenGate, OutputSink};
use pd_top::{Outcome, WordFault, run};
use std::process::ExitCode;
use std::rt::Env;
use std::{env, io};

// The words after the program's name.
fn words<R: Env + AllocGlobal>(rt: &R) -> io::Result<Vec<String>> {
    let mut words = Vec::new(rt.alloc());
    for word in env::args(rt)?.skip(1) {
        words.push(word)?;
    }
    Ok(words)
}

fn main(rt: HostRuntime) -> ExitCode {
    let alloc = rt.alloc();
    let mut files = FolderLibrary::new(&rt);
    let mut out = OutputSink::new(io::writer(&rt));
    let outcome = match words(&rt) {
        Ok(words) => run(
            &rt,
            alloc,
            words.as_slice(),
            &mut files,
            &mut out,
            &OpenGate,
        ),
        Err(e) if e.kind() == io::ErrorKind::OutOfMemory => Outcome::Memory,
        Err(_) => Outcome::Usage(WordFault::Refused),
    };
    let status = outcome.status();
    if status != 0 && status != 7 {
        // Where standard error can't be written, the status still tells.
        let _ = match outcome.message(alloc) {
            Ok(message) => eprintln!(rt; "{}", message.as_str()),
            Err(_) => eprintln!(rt; "polydbg: out of memory"),
        };
    }
    ExitCode::from(status)
}
