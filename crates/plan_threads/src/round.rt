//! One round: a plan with four contexts and four sessions runs in threads, and all that it tells is looked at.
use crate::command::ran;
use crate::contexts::{contexts_agree, stops_agree};
use crate::fault::Fault;
use crate::gates::Mixed;
use crate::lives::lives_agree;
use crate::logs::logs_agree;
use crate::transcript::transcript_agrees;
use pd_log::Entry;
use pd_outside::Library;
use pd_run::Report;
use std::alloc::Global;
use std::thread::Threads;

/// How many contexts the plan has, and as many sessions.
const CONTEXTS: usize = 4;

/// How many bindings it has.
const BINDINGS: usize = 6;

fn lengths_agree(report: &Report) -> Result<(), Fault> {
    let contexts = report.contexts.as_slice().len();
    let sessions = report.sessions.as_slice().len();
    let bindings = report.tally.bindings().len();
    if (contexts, sessions, bindings) == (CONTEXTS, CONTEXTS, BINDINGS) {
        Ok(())
    } else {
        Err(Fault::Lengths)
    }
}

/// Plays a round, and looks at its report and transcript. `whole` is what an observer of all statements is given of the
/// program where nothing else runs.
pub fn play_round<R: Threads + Sync, L: Library>(
    rt: &R,
    alloc: Global,
    files: &mut L,
    whole: &[Entry],
) -> Result<(), Fault> {
    let ran = ran(rt, alloc, files, "run", "round.json", &Mixed::new(8))?;
    let report = &ran.report;
    lengths_agree(report)?;
    contexts_agree(report.contexts.as_slice())?;
    stops_agree(report.contexts.as_slice())?;
    logs_agree(alloc, report, whole)?;
    lives_agree(alloc, report)?;
    let Some(text) = ran.transcript() else {
        return Err(Fault::Line { line: 0 });
    };
    transcript_agrees(alloc, text, report)
}
