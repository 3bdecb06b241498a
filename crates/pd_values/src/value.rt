//! Values of both languages, faults and ends.
ghost use Rattle.std.specs.Prelude.{◌≡◌, IfOk};

use crate::text::Text;
use std::alloc::AllocError;
use std::marker::Model;

/// A node of a program, by its number, counted from 0 over all sources in the plan's order.
#[derive(Clone, Copy, Drop)]
pub struct NodeId(pub u32);

impl Model for NodeId {
    ghost use Rattle.std.specs.Prelude.{ℕ};

    ghost Value = { ℕ };

    ghost view = { λ n. n.0 };

    ghost inverse = { λ n. record { 0 = n } };
}

/// What a node is to a debugger. A node may have several tags or none; docs/LANGUAGES.md has the table of both
/// languages.
#[derive(Clone, Copy, Debug, Drop, PartialEq, Eq)]
pub enum Tag {
    /// A step of the program: a statement, or the condition of an `if` or `while`.
    Statement,
    /// A call.
    Call,
    /// A whole function, procedure or main block.
    Root,
    /// The body of one.
    RootBody,
    /// What gives a value.
    Expression,
    /// The read of a variable.
    ReadVariable,
    /// The assignment to a variable.
    WriteVariable,
    /// A place that asks a debugger to stop: `debugger` in SL.
    AlwaysHalt,
}

/// A value of either language.
#[derive(Drop)]
pub enum Value {
    /// A whole number from -2^63 to 2^63 - 1.
    Number(i64),
    /// A truth value.
    Bool(bool),
    /// A text of UTF-8.
    Text(Text),
    /// NULL: what a variable of SL has before it is assigned.
    Null,
    /// A function or procedure: an item of the program, by its number.
    Func(u32),
}

/// Why a program ends with a fault; docs/LANGUAGES.md has the rules.
#[derive(Clone, Copy, Debug, Drop, PartialEq, Eq)]
pub enum Fault {
    /// A result below -2^63 or above 2^63 - 1.
    Overflow,
    /// A division by 0.
    DivZero,
    /// A value of a kind that the operator, the condition or the call doesn't take.
    WrongKind,
    /// A name that means nothing, when it is evaluated or called.
    Undefined,
    /// A call of a function or procedure while 2,000 frames are live.
    Depth,
    /// A joined text of more than 65,536 bytes.
    TextLong,
    /// An output of more than 16,777,216 bytes.
    OutputLong,
    /// SL calls a procedure of PL/0 with an argument that isn't a number.
    CrossType,
    /// SL calls a procedure of PL/0 with more arguments than it has variables.
    CrossArity,
}

/// How a run ended.
#[derive(Drop)]
pub enum End {
    /// It came to its end with this value.
    Done(Value),
    /// A fault at this node.
    Faulted(Fault, NodeId),
    /// A node was to be entered, and no fuel was left.
    Exhausted,
    /// A verdict on an event killed it.
    Killed,
}

/// The comparisons of order between numbers.
#[derive(Clone, Copy, Debug, Drop, PartialEq, Eq)]
pub enum Cmp {
    Less,
    LessEq,
    Greater,
    GreaterEq,
}

impl Value {
    /// A second value with the same content. Where memory runs out it answers `AllocError`.
    pub fn copy(&self) -> Result<Value, AllocError>
        ensures { IfOk result (λ v. v ≡ self.now) }
    {
        Ok(match self {
            Value::Number(n) => Value::Number(*n),
            Value::Bool(b) => Value::Bool(*b),
            Value::Text(t) => Value::Text(t.copy()?),
            Value::Null => Value::Null,
            Value::Func(i) => Value::Func(*i),
        })
    }
}
