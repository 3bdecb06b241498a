//! The answers of the top call.
ghost use Rattle.std.specs.Prelude.{◌≡◌, ◌++◌, IfOk, OnOk, string_bytes};
ghost use Rattle.pd_top.specs.Answers.{is_done, report_status, usage_message, plan_rule_name, rule_name, cause_name, cause_place, refusal_message};

use pd_calltree::CallTree;
use pd_coverage::Coverage;
use pd_gen::Summary;
use pd_load::{LoadCause, LoadRefusal};
use pd_plan::{PlanRefusal, PlanRule};
use pd_report::Report;
use pd_sections::Rule;
use pd_values::{End, Text};
use pd_words::WordFault;
use std::alloc::{AllocError, AllocFailed, Global};

/// The answer that was to be given where its text couldn't be written whole.
#[derive(Drop)]
pub enum Unwritten {
    /// A plan ran, with this report.
    Ran(Report),
    /// A plan and its sources were accepted.
    Checked,
    /// The workload of a number ran, with this report and this summary.
    Generated(Report, Summary),
    /// A plan ran, with this report, in which an observer covers this.
    Covered(Report, Coverage),
    /// A plan ran, with this report, which has these paths of calls.
    Treed(Report, CallTree),
}

/// What became of a command. docs/FORMATS.md has the status and the message of each.
#[derive(Drop)]
pub enum Outcome {
    /// A plan ran, with this report, and its transcript was written whole.
    Ran(Report),
    /// A plan and its sources are accepted, and the line was written whole.
    Checked,
    /// The workload of a number ran, with this report, and its summary was written whole.
    Generated(Report, Summary),
    /// A plan ran, with this report, and what an observer covers in it was written whole.
    Covered(Report, Coverage),
    /// A plan ran, with this report, and its paths of calls were written whole.
    Treed(Report, CallTree),
    /// The words are no command.
    Usage(WordFault),
    /// The file of this name couldn't be read.
    Unreadable(Text),
    /// The file of this name has more than 1,048,576 bytes.
    TooLong(Text),
    /// The plan's file is no plan.
    PlanRefused(PlanRefusal),
    /// The binding of this number isn't one as the command needs: for `coverage` an observer of the plan, for `calltree` an
    /// observer of all functions and procedures that is attached before the run and that nothing disposes or disables.
    NoObserver { binding: u32 },
    /// A source, an export or an entry of the plan is refused.
    SourceRefused(LoadRefusal),
    /// A write failed, so that this answer's text wasn't written whole.
    SinkFailed(Unwritten),
    /// Memory ran out.
    Memory,
}

impl From<AllocError> for Outcome {
    ghost use Rattle.std.specs.Prelude.{◌≡◌};
    ghost use Rattle.pd_top.specs.declared.outcome.Outcome.TheVariants.{Memory};

    ghost from_gives = { λ _ outcome. outcome ≡ Memory };

    fn from(_e: AllocError) -> Outcome {
        Outcome::Memory
    }
}

impl<T: Drop> From<AllocFailed<T>> for Outcome {
    ghost use Rattle.std.specs.Prelude.{◌≡◌};
    ghost use Rattle.pd_top.specs.declared.outcome.Outcome.TheVariants.{Memory};

    ghost from_gives = { λ _ outcome. outcome ≡ Memory };

    fn from(_e: AllocFailed<T>) -> Outcome {
        Outcome::Memory
    }
}

fn is_done(end: &End) -> bool
    ensures { result ≡ is_done end.now }
{
    matches!(end, End::Done(_))
}

// 0, or 7 where some context ended otherwise than done.
fn report_status(report: &Report) -> u8
    ensures { result ≡ report_status report.now }
{
    for context in report.contexts.as_slice() {
        if !is_done(&context.end) {
            return 7;
        }
    }
    0
}

fn usage_message(fault: WordFault) -> &'static str
    ensures { result.now ≡ usage_message fault }
{
    match fault {
        WordFault::NoCommand => "polydbg: no command",
        WordFault::UnknownCommand => "polydbg: unknown command",
        WordFault::Refused => "polydbg: words refused",
    }
}

fn plan_rule_name(rule: PlanRule) -> &'static str
    ensures { result.now ≡ plan_rule_name rule }
{
    match rule {
        PlanRule::NotJson => "NotJson",
        PlanRule::Missing => "Missing",
        PlanRule::WrongShape => "WrongShape",
        PlanRule::OutOfRange => "OutOfRange",
        PlanRule::UnknownWord => "UnknownWord",
        PlanRule::UnknownMember => "UnknownMember",
        PlanRule::NoSuch => "NoSuch",
        PlanRule::BadCondition => "BadCondition",
        PlanRule::NotAnObserver => "NotAnObserver",
        PlanRule::NotBuilt => "NotBuilt",
    }
}

fn rule_name(rule: Rule) -> &'static str
    ensures { result.now ≡ rule_name rule }
{
    match rule {
        Rule::BadByte => "BadByte",
        Rule::OpenText => "OpenText",
        Rule::OpenComment => "OpenComment",
        Rule::Unexpected => "Unexpected",
        Rule::LiteralTooLarge => "LiteralTooLarge",
        Rule::Undeclared => "Undeclared",
        Rule::NotAssignable => "NotAssignable",
        Rule::NotAProcedure => "NotAProcedure",
        Rule::NotAValue => "NotAValue",
        Rule::Doubled => "Doubled",
        Rule::TooDeep => "TooDeep",
        Rule::TooManyNodes => "TooManyNodes",
    }
}

// What a source is refused for, and the byte, or the number of the export or context.
fn cause_words(cause: LoadCause) -> (&'static str, u32)
    ensures name { result.0.now ≡ cause_name cause }
    ensures place { result.1 ≡ cause_place cause }
{
    match cause {
        LoadCause::Spelling(refusal) => (rule_name(refusal.rule), refusal.at),
        LoadCause::NoSuchItem { export } => ("NoSuchItem", export),
        LoadCause::DoubledExport { export } => ("DoubledExport", export),
        LoadCause::NoSuchEntry { context } => ("NoSuchEntry", context),
        LoadCause::NotUtf8 { at } => ("NotUtf8", at),
    }
}

fn push_refusal(message: &mut String, refusal: LoadRefusal) -> Result<(), AllocError>
    ensures { OnOk result (string_bytes message.new ≡ string_bytes message.old ++ refusal_message refusal) }
{
    let source = refusal.source;
    let (name, place) = cause_words(refusal.cause);
    write!(message, "polydbg: source {source} {name} at {place}")
}

impl Outcome {
    ghost use Rattle.pd_top.specs.Answers.{status_of, message_of};

    /// The status with which the process ends: 0, or 7 where a context ended otherwise than done; 1 for words that are
    /// no command, 2 for a file that is unreadable or too long, 3 for a refused plan, 4 for a refused source, 5 for a
    /// failed write, 6 where memory ran out, 8 for a binding that isn't as the command needs. What is made of a report has 0
    /// whatever the ends of its contexts.
    pub fn status(&self) -> u8
        ensures { result ≡ status_of self.now }
    {
        match self {
            Outcome::Ran(report) => report_status(report),
            Outcome::Checked
            | Outcome::Generated(_, _)
            | Outcome::Covered(_, _)
            | Outcome::Treed(_, _) => 0,
            Outcome::Usage(_) => 1,
            Outcome::Unreadable(_) | Outcome::TooLong(_) => 2,
            Outcome::PlanRefused(_) => 3,
            Outcome::SourceRefused(_) => 4,
            Outcome::SinkFailed(_) => 5,
            Outcome::Memory => 6,
            Outcome::NoObserver { .. } => 8,
        }
    }

    /// What is told on standard error, one line without its end; empty where a text was written whole.
    pub fn message(&self, alloc: Global) -> Result<Text, AllocError>
        ensures { IfOk result (λ message. message ≡ message_of self.now) }
    {
        let mut message = String::new(alloc);
        match self {
            Outcome::Ran(_)
            | Outcome::Checked
            | Outcome::Generated(_, _)
            | Outcome::Covered(_, _)
            | Outcome::Treed(_, _) => {}
            Outcome::Usage(fault) => message.push_str(usage_message(*fault))?,
            Outcome::Unreadable(name) => {
                write!(message, "polydbg: cannot read {}", name.as_str())?
            }
            Outcome::TooLong(name) => write!(message, "polydbg: too long {}", name.as_str())?,
            Outcome::PlanRefused(PlanRefusal { rule, path }) => {
                let name = plan_rule_name(*rule);
                write!(message, "polydbg: plan {name} at {}", path.as_str())?
            }
            Outcome::NoObserver { binding } => write!(message, "polydbg: no observer {binding}")?,
            Outcome::SourceRefused(refusal) => push_refusal(&mut message, *refusal)?,
            Outcome::SinkFailed(_) => message.push_str("polydbg: cannot write")?,
            Outcome::Memory => message.push_str("polydbg: out of memory")?,
        }
        Ok(Text::of(message))
    }
}
