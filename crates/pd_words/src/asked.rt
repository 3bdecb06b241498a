//! What words ask for, and why they are no command.
use pd_values::Text;

/// Why words are no command.
#[derive(Clone, Copy, Drop, Debug, PartialEq, Eq)]
pub enum WordFault {
    /// There are no words.
    NoCommand,
    /// The first word names no command.
    UnknownCommand,
    /// The command doesn't take the words after its name.
    Refused,
}

/// The words of `run`.
#[derive(Drop)]
pub struct RunWords {
    /// The name of the plan's file.
    pub plan: Text,
    /// Whether each log is to stand in the order of places.
    pub merged: bool,
    /// Whether the transcript is to be JSON.
    pub json: bool,
    /// The fuel of every context in place of the plan's, from 1 to 16,777,216.
    pub fuel: Option<u32>,
}

/// The words of a command on one binding of a plan.
#[derive(Drop)]
pub struct BindingWords {
    /// The name of the plan's file.
    pub plan: Text,
    /// The number of the binding, from 0 to 4,095.
    pub binding: u32,
    /// The fuel of every context in place of the plan's, from 1 to 16,777,216.
    pub fuel: Option<u32>,
}

/// What words ask for.
#[derive(Drop)]
pub enum Command {
    /// To run the source in the file of this name under an observer of all statements.
    Trace(Text),
    /// To run the plan in a file.
    Run(RunWords),
    /// To check the plan in the file of this name without running it.
    Check(Text),
    /// To run the generated plan of this number, from 0 to 999,999.
    Gen(u32),
    /// To run the plan in a file, and to tell which statements and lines an observer covers.
    Coverage(BindingWords),
    /// To run the plan in a file, and to count each path of calls.
    CallTree(BindingWords),
}
