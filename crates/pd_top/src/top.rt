//! The top call.
ghost use Rattle.std.specs.Prelude.{◌≡◌, ◌≤◌, ◌<◌, ◌⊎◌, ℕ, true, false, Err, length, None, Ok, IfOk, IfErr, OnOk, OnErr};
ghost use Rattle.pd_plan.specs.Sound.{IsSound};
ghost use Rattle.pd_run.specs.Run.{IsRun};
ghost use Rattle.pd_words.specs.declared.asked.WordFault.{WordFault};
ghost use Rattle.pd_nesting.specs.Nesting.{AreRooted};
ghost use Rattle.pd_coverage.specs.Report.{watches};
ghost use Rattle.pd_calltree.specs.Suits.{is_for_tree};
ghost use Rattle.pd_words.specs.Words.{texts, command_of, HasNumbersInRange};
ghost use Rattle.pd_top.specs.Files.{IsGrown};
ghost use Rattle.pd_top.specs.Causes.{unfit_binding};
ghost use Rattle.pd_top.specs.Stops.{StopsWords};
ghost use Rattle.pd_top.specs.Answers.{Reading, reading_of, writing_of, IsWritten, IsWrittenInPart, transcript, IsTranscript, IsSummed, IsCovered, IsTreed, IsTextOf, IsWhole, IsReason, Tells, IsDecided, is_unwritten};

use crate::accepting::{Accepted, accept};
use crate::outcome::{Outcome, Unwritten};
use pd_calltree::{calltree_text, tree};
use pd_coverage::{cover, coverage_text};
use pd_gen::{summary, summary_text};
use pd_host::run_plan;
use pd_outside::{Failed, Gate, Library, Sink};
use pd_report::{Report, check_line, json_of, text_of};
use pd_values::{Stop, Text};
use pd_words::{Command, WordFault, read_words};
use std::alloc::{AllocError, Global};
use std::thread::Threads;

// The most bytes that are written by one call of the sink.
const PIECE: usize = 4_096;

// Writes the bytes, piece after piece.
fn write_whole<K: Sink>(out: &mut K, bytes: &[u8]) -> Result<(), Failed>
    ensures whole { OnOk result (IsWritten (writing_of K.taken K.accepted K.faults out.old out.new) bytes.now) }
    ensures part { OnErr result (IsWrittenInPart (writing_of K.taken K.accepted K.faults out.old out.new) bytes.now) }
    ensures failed { OnErr result (K.faults out.old < K.faults out.new) }
    ensures count { K.faults out.old ≤ K.faults out.new }
{
    let mut at = 0;
    while at < bytes.len() {
        let end = at + PIECE.min(bytes.len() - at);
        out.write(&bytes[at..end])?;
        at = end;
    }
    Ok(())
}

/// An answer with its whole text, which is still to be written.
#[derive(Drop)]
struct Prepared {
    answer: Unwritten,
    text: Text,
}

// The transcript of a report, as text or as JSON, with each log merged or context by context.
fn transcript(
    alloc: Global,
    json: bool,
    merged: bool,
    report: &Report,
    accepted: &Accepted,
) -> Result<Text, AllocError>
    requires run { IsRun accepted.now.plan accepted.now.program report.now }
    ensures { IfOk result (λ text. text ≡ transcript json merged accepted.now.plan accepted.now.program report.now) }
{
    let Accepted { plan, program } = accepted;
    if json {
        json_of(alloc, report, plan, program, merged)
    } else {
        text_of(alloc, report, plan, program, merged)
    }
}

// The report of a plan's run, with its transcript as text or as JSON, with each log merged or context by context.
// Nothing is written here.
fn ran<R: Threads + Sync, G: Gate>(
    rt: &R,
    alloc: Global,
    accepted: &Accepted,
    json: bool,
    merged: bool,
    gate: &G,
) -> Result<Prepared, AllocError>
    requires sound { IsSound accepted.now.plan }
    requires entries { length accepted.now.program.entries ≡ length accepted.now.plan.contexts }
    ensures { IfOk result (λ p. IsTranscript json merged accepted.now.plan accepted.now.program p.answer p.text) }
{
    let report = run_plan(rt, alloc, &accepted.plan, &accepted.program, gate)?;
    let text = transcript(alloc, json, merged, &report, accepted)?;
    Ok(Prepared {
        answer: Unwritten::Ran(report),
        text,
    })
}

// The report of a workload's run, with its summary.
fn summed<R: Threads + Sync, G: Gate>(
    rt: &R,
    alloc: Global,
    accepted: &Accepted,
    number: u32,
    gate: &G,
) -> Result<Prepared, AllocError>
    requires sound { IsSound accepted.now.plan }
    requires entries { length accepted.now.program.entries ≡ length accepted.now.plan.contexts }
    ensures { IfOk result (λ p. IsSummed number accepted.now.plan accepted.now.program p.answer p.text) }
{
    let report = run_plan(rt, alloc, &accepted.plan, &accepted.program, gate)?;
    let told = summary(alloc, number, &report)?;
    let text = summary_text(alloc, &told)?;
    Ok(Prepared {
        answer: Unwritten::Generated(report, told),
        text,
    })
}

// The report of a plan's run, with what the observer of this number covers in it.
fn covered<R: Threads + Sync, G: Gate>(
    rt: &R,
    alloc: Global,
    accepted: &Accepted,
    binding: u32,
    gate: &G,
) -> Result<Prepared, AllocError>
    requires sound { IsSound accepted.now.plan }
    requires entries { length accepted.now.program.entries ≡ length accepted.now.plan.contexts }
    requires observer { watches accepted.now.plan binding ≡ true }
    ensures { IfOk result (λ p. IsCovered binding accepted.now.plan accepted.now.program p.answer p.text) }
{
    let Accepted { plan, program } = accepted;
    let report = run_plan(rt, alloc, plan, program, gate)?;
    let coverage = cover(alloc, &report, plan, program, binding)?;
    let text = coverage_text(alloc, &coverage, plan, program)?;
    Ok(Prepared {
        answer: Unwritten::Covered(report, coverage),
        text,
    })
}

// The report of a plan's run, with its paths of calls by the observer of this number.
fn treed<R: Threads + Sync, G: Gate>(
    rt: &R,
    alloc: Global,
    accepted: &Accepted,
    binding: u32,
    gate: &G,
) -> Result<Prepared, AllocError>
    requires sound { IsSound accepted.now.plan }
    requires entries { length accepted.now.program.entries ≡ length accepted.now.plan.contexts }
    requires rooted { AreRooted accepted.now.program }
    requires suits { is_for_tree accepted.now.plan binding ≡ true }
    ensures { IfOk result (λ p. IsTreed accepted.now.plan accepted.now.program p.answer p.text) }
{
    let Accepted { plan, program } = accepted;
    let report = run_plan(rt, alloc, plan, program, gate)?;
    let calls = tree(alloc, &report, plan, program, binding)?;
    let text = calltree_text(alloc, &calls, &report, program)?;
    Ok(Prepared {
        answer: Unwritten::Treed(report, calls),
        text,
    })
}

// The answer of a command, with its text, for a plan and its program. Nothing is written here.
fn answer_of<R: Threads + Sync, G: Gate>(
    rt: &R,
    alloc: Global,
    command: &Command,
    accepted: &Accepted,
    gate: &G,
) -> Result<Prepared, AllocError>
    requires sound { IsSound accepted.now.plan }
    requires entries { length accepted.now.program.entries ≡ length accepted.now.plan.contexts }
    requires rooted { AreRooted accepted.now.program }
    requires fit { unfit_binding command.now accepted.now.plan ≡ None }
    ensures { IfOk result (λ p. IsTextOf command.now accepted.now.plan accepted.now.program p.answer p.text) }
{
    match command {
        Command::Trace(_) => ran(rt, alloc, accepted, false, false, gate),
        Command::Run(words) => ran(rt, alloc, accepted, words.json, words.merged, gate),
        Command::Check(_) => Ok(Prepared {
            answer: Unwritten::Checked,
            text: check_line(alloc, &accepted.plan, &accepted.program)?,
        }),
        Command::Gen(number) => summed(rt, alloc, accepted, *number, gate),
        Command::Coverage(words) => covered(rt, alloc, accepted, words.binding, gate),
        Command::CallTree(words) => treed(rt, alloc, accepted, words.binding, gate),
    }
}

// What the words ask for.
fn command_in(alloc: Global, words: &[String]) -> Result<Command, Outcome>
    ensures asked { IfOk result (λ command. command_of (texts words.now) ≡ Ok command) }
    ensures numbers { IfOk result HasNumbersInRange }
    ensures stopped { IfErr result (StopsWords (texts words.now)) }
{
    match read_words(alloc, words) {
        Ok(command) => Ok(command),
        Err(Stop::Refused(fault)) => Err(Outcome::Usage(fault)),
        Err(Stop::Memory) => Err(Outcome::Memory),
    }
}

// Does a command up to its text. An `Err` is the answer of a command that comes to no text.
fn prepare<R: Threads + Sync, L: Library, G: Gate>(
    rt: &R,
    alloc: Global,
    words: &[String],
    files: &mut L,
    gate: &G,
) -> Result<Prepared, Outcome>
    ensures whole { IfOk result (λ p. IsWhole (reading_of L.held L.given L.faults L.last_fault (texts words.now) files.old files.new) p.answer p.text) }
    ensures reason { IfErr result (IsReason (reading_of L.held L.given L.faults L.last_fault (texts words.now) files.old files.new)) }
    ensures usage { (fault : WordFault) → command_of (texts words.now) ≡ Err fault → (result ≡ Err (Outcome.Usage fault)) ⊎ (result ≡ Err Outcome.Memory) }
    ensures nothing_fetched { (fault : WordFault) → command_of (texts words.now) ≡ Err fault → files.new ≡ files.old }
    ensures held { L.held files.new ≡ L.held files.old }
    ensures given { IsGrown (L.given files.old) (L.given files.new) }
    ensures count { L.faults files.old ≤ L.faults files.new }
{
    let command = command_in(alloc, words)?;
    let accepted = accept(alloc, &command, files)?;
    Ok(answer_of(rt, alloc, &command, &accepted, gate)?)
}

// Writes the text of an answer.
fn write_answer<K: Sink>(out: &mut K, prepared: Prepared) -> Outcome
    ensures tells { (reading : Reading) → IsWhole reading prepared.answer prepared.text
        → Tells reading (writing_of K.taken K.accepted K.faults out.old out.new) result }
    ensures written { is_unwritten result ≡ false }
    ensures count { K.faults out.old ≤ K.faults out.new }
{
    let Prepared { answer, text } = prepared;
    match write_whole(out, text.as_str().as_bytes()) {
        Err(Failed) => Outcome::SinkFailed(answer),
        Ok(()) => match answer {
            Unwritten::Ran(report) => Outcome::Ran(report),
            Unwritten::Checked => Outcome::Checked,
            Unwritten::Generated(report, told) => Outcome::Generated(report, told),
            Unwritten::Covered(report, coverage) => Outcome::Covered(report, coverage),
            Unwritten::Treed(report, calls) => Outcome::Treed(report, calls),
        },
    }
}

/// Does a command: reads the words and the files, makes the whole text and writes it in pieces. The order is: words, the
/// plan's file, plan, the binding that the command needs, the file of each source, whether all sources are UTF-8, load,
/// run, text, write. `gen` reads no file: its plan and its sources are made.
///
/// Each context of a plan, and the actions of each of its sessions, run in a thread of their own, by `rt`. The gate is
/// asked at each event. Of a file at most 1,048,577 bytes are asked for: one more than a plan or source may have. Memory
/// may run out at any call: then the answer is `Outcome::Memory`, and nothing is written.
pub fn run<R: Threads + Sync, L: Library, K: Sink, G: Gate>(
    rt: &R,
    alloc: Global,
    words: &[String],
    files: &mut L,
    out: &mut K,
    gate: &G,
) -> Outcome
    // What each answer says: `Tells` has a line for each. At `Ran` the words are `trace` or `run`, plan and sources are
    // accepted, and the bytes written are the transcript of the report, which is one of the plan's run (`IsRun`): for
    // every accepted plan and every interleaving of its contexts and sessions, the output and the end of each context
    // are its program's meaning under exactly the verdicts that its sessions answered; the log of each binding is
    // exactly the matching events while it was attached, enabled and not disposed, each once, in each context's order;
    // and each suspension stands exactly where breakpoints, steps and `debugger` statements put it. No schedule is a
    // premise: this holds of the one report, in whatever order the threads took their steps. At `Generated`, `Covered` and
    // `Treed` the report is such a one too, and the bytes are those of the summary, of the coverage or of the paths of
    // calls that it has by definition.
    ensures tells { Tells
        (reading_of L.held L.given L.faults L.last_fault (texts words.now) files.old files.new)
        (writing_of K.taken K.accepted K.faults out.old out.new) result }

    // Which one is given: where no call fails, that of the one cause that the files have, or `Memory`.
    ensures decided { IsDecided
        (reading_of L.held L.given L.faults L.last_fault (texts words.now) files.old files.new)
        (writing_of K.taken K.accepted K.faults out.old out.new) result }

    // Words that are no command are answered so, or with `Memory`, and then no file is asked for.
    ensures usage { (fault : WordFault) → command_of (texts words.now) ≡ Err fault → (result ≡ Outcome.Usage fault) ⊎ (result ≡ Outcome.Memory) }
    ensures nothing_fetched { (fault : WordFault) → command_of (texts words.now) ≡ Err fault → files.new ≡ files.old }

    // With an answer other than `SinkFailed` and those that have a text, nothing is written.
    ensures nothing_written { is_unwritten result ≡ true → out.new ≡ out.old }

    // The library keeps what it holds and what it gave, and no count falls.
    ensures held { L.held files.new ≡ L.held files.old }
    ensures given { IsGrown (L.given files.old) (L.given files.new) }
    ensures library_count { L.faults files.old ≤ L.faults files.new }
    ensures sink_count { K.faults out.old ≤ K.faults out.new }
{
    match prepare(rt, alloc, words, files, gate) {
        Ok(prepared) => write_answer(out, prepared),
        Err(outcome) => outcome,
    }
}
