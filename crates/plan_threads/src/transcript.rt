//! The lines of a transcript, from the report.
use crate::fault::Fault;
use pd_board::{ActResult, Attach, BindingTally, Dispose, State, Toggle, Waited};
use pd_log::Entry;
use pd_machine::EventKind;
use pd_run::Report;
use pd_session::{ActionResult, SessionRecord};
use pd_suspend::{ContextRecord, Suspension};
use std::alloc::{AllocError, Global};

/// Beginnings of lines, in order. What they leave out are positions and values.
#[derive(Drop)]
struct Lines {
    alloc: Global,
    lines: Vec<String>,
}

fn attach(answer: Attach) -> &'static str {
    match answer {
        Attach::Attached => "attached",
        Attach::Already => "already",
        Attach::Gone => "gone",
    }
}

fn toggle(alloc: Global, answer: Toggle) -> Result<String, AllocError> {
    match answer {
        Toggle::At { count } => format!(in alloc; "at {count}"),
        Toggle::Already => String::from_str(alloc, "already"),
        Toggle::Gone => String::from_str(alloc, "gone"),
    }
}

fn state(state: State) -> &'static str {
    match state {
        State::Unattached => "unattached",
        State::Live => "live",
        State::Disposed => "disposed",
    }
}

fn event(kind: &EventKind) -> &'static str {
    match kind {
        EventKind::Enter => "enter",
        EventKind::Return(_) => "return",
        EventKind::Leave(_) => "leave",
    }
}

impl Lines {
    fn tell(&mut self, line: String) -> Result<(), AllocError> {
        self.lines.push(line)?;
        Ok(())
    }

    fn context(&mut self, number: usize, context: &ContextRecord) -> Result<(), AllocError> {
        let alloc = self.alloc;
        self.tell(format!(in alloc; "context {number} loop.sl main")?)?;
        for line in context.output.as_str().lines() {
            self.tell(format!(in alloc; "| {line}")?)?;
        }
        let used = context.used;
        self.tell(format!(in alloc; "end done NULL fuel {used}")?)?;
        for stop in context.stops.as_slice() {
            self.stop(stop)?;
        }
        Ok(())
    }

    fn stop(&mut self, stop: &Suspension) -> Result<(), AllocError> {
        let alloc = self.alloc;
        let Suspension {
            event,
            session,
            node,
            ..
        } = stop;
        let node = node.0;
        self.tell(format!(in alloc; "stop {event} session {session} before {node} ")?)?;
        self.tell(format!(in alloc; "  frame 0 main ")?)?;
        self.tell(format!(in alloc; "  then continue")?)
    }

    fn act(&mut self, answer: ActResult) -> Result<(), AllocError> {
        let alloc = self.alloc;
        let line = match answer {
            ActResult::Attached(b, a) => {
                let word = attach(a);
                format!(in alloc; "  attach {b} {word}")?
            }
            ActResult::Disposed(b, Dispose::Disposed { count }) => {
                format!(in alloc; "  dispose {b} disposed {count}")?
            }
            ActResult::Disposed(b, Dispose::Already) => format!(in alloc; "  dispose {b} already")?,
            ActResult::Enabled(b, t) => {
                let words = toggle(alloc, t)?;
                format!(in alloc; "  enable {b} {words}")?
            }
            ActResult::Disabled(b, t) => {
                let words = toggle(alloc, t)?;
                format!(in alloc; "  disable {b} {words}")?
            }
        };
        self.tell(line)
    }

    fn action(&mut self, done: ActionResult) -> Result<(), AllocError> {
        let alloc = self.alloc;
        let line = match done {
            ActionResult::Act(answer) => return self.act(answer),
            ActionResult::Awaited(count, Waited::Reached { n }) => {
                format!(in alloc; "  await {count} reached {n}")?
            }
            ActionResult::Awaited(count, Waited::AllEnded) => {
                format!(in alloc; "  await {count} ended")?
            }
            ActionResult::Awaited(count, Waited::Late { n }) => {
                format!(in alloc; "  await {count} late {n}")?
            }
        };
        self.tell(line)
    }

    fn session(
        &mut self,
        number: usize,
        answers: u32,
        session: &SessionRecord,
    ) -> Result<(), AllocError> {
        let alloc = self.alloc;
        self.tell(format!(in alloc; "session {number} answers {answers}")?)?;
        for answer in session.before.as_slice() {
            if let ActResult::Attached(b, a) = *answer {
                let word = attach(a);
                self.tell(format!(in alloc; "  before {b} {word}")?)?;
            }
        }
        for done in session.actions.as_slice() {
            self.action(*done)?;
        }
        Ok(())
    }

    fn binding(&mut self, number: usize, tally: BindingTally) -> Result<(), AllocError> {
        let alloc = self.alloc;
        let kind = if number == 5 { "break 4" } else { "observe" };
        let (count, word) = (tally.count, state(tally.state));
        self.tell(format!(in alloc; "binding {number} {kind} count {count} {word}")?)
    }

    fn entry(&mut self, entry: &Entry) -> Result<(), AllocError> {
        let alloc = self.alloc;
        let word = event(&entry.kind);
        let (context, number, place, node) = (
            entry.context,
            entry.event,
            entry.place,
            entry.node.0,
        );
        self.tell(format!(in alloc; "  {context} {number} {place} {word} {node} ")?)
    }

    /// All lines of the report's transcript.
    fn of(alloc: Global, report: &Report) -> Result<Lines, AllocError> {
        let mut lines = Lines {
            alloc,
            lines: Vec::new(alloc),
        };
        for (number, context) in report.contexts.as_slice().iter().enumerate() {
            lines.context(number, context)?;
        }
        let answers = report.tally.answers().iter();
        for (number, (session, answers)) in report
            .sessions
            .as_slice()
            .iter()
            .zip(answers)
            .enumerate()
        {
            lines.session(number, *answers, session)?;
        }
        for (number, tally) in report.tally.bindings().iter().enumerate() {
            lines.binding(number, *tally)?;
            for context in report.contexts.as_slice() {
                if let Some(log) = context.logs.as_slice().get(number) {
                    for entry in log.as_slice() {
                        lines.entry(entry)?;
                    }
                }
            }
        }
        Ok(lines)
    }
}

/// Whether the transcript is the one of the report, line by line.
pub fn transcript_agrees(alloc: Global, transcript: &str, report: &Report) -> Result<(), Fault> {
    let Lines { lines, .. } = Lines::of(alloc, report)?;
    let mut told = transcript.lines();
    for (line, wanted) in lines.as_slice().iter().enumerate() {
        match told.next() {
            Some(text) if text.starts_with(wanted.as_str()) => {}
            _ => return Err(Fault::Line { line }),
        }
    }
    match told.next() {
        None => Ok(()),
        Some(_) => Err(Fault::Line { line: lines.len() }),
    }
}
