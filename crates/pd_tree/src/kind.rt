//! The kinds of nodes of both languages, and what a name means.
use pd_values::{Items, Text};

/// An operator with two operands.
#[derive(Clone, Copy, Drop)]
pub enum Operator {
    Equal,
    NotEqual,
    Less,
    LessEq,
    Greater,
    GreaterEq,
    Add,
    Sub,
    Mul,
    Div,
}

/// What a name means.
#[derive(Clone, Copy, Drop)]
pub enum Meaning {
    /// The variable in this slot of the block that stands `up` blocks outward; both count from 0.
    Local { up: u32, slot: u32 },
    /// An item of the program, by its number: a function, a procedure, or `println`.
    Item(u32),
    /// Nothing, or the node has no name.
    Nothing,
}

/// The kind of a node, with what its own tokens say; `Sl..` is SimpleLanguage, `Pl..` is PL/0. docs/LANGUAGES.md has
/// the table of nodes.
#[derive(Drop)]
pub enum Kind {
    /// A function. Its part is its body.
    SlFunction { name: Text, parameters: Items<Text> },
    /// The block of a function. Its parts are statements.
    SlBody,
    /// Another block. Its parts are statements.
    SlBlock,
    /// Its parts are the condition, the block, and the else block if there is one.
    SlIf,
    /// Its parts are the condition and the block.
    SlWhile,
    /// `return`. Its part is the value, if there is one.
    SlReturn,
    /// `break`.
    SlBreak,
    /// `continue`.
    SlContinue,
    /// `debugger`.
    SlDebugger,
    /// `||` with its two sides.
    SlOr,
    /// `&&` with its two sides.
    SlAnd,
    /// Another operator with its two operands.
    SlBinary(Operator),
    /// A call. Its parts are the callee and then the arguments.
    SlCall,
    /// The assignment to a name. Its part is the right side.
    SlAssign(Text),
    /// A name that is evaluated.
    SlName(Text),
    /// A number as it is written, 0 to 2^63 - 1.
    SlNumber(i64),
    /// A text as it is written, without its `"`.
    SlText(Text),
    /// A procedure, or the main block with the name `main`. Its parts are the inner procedures and then its body.
    PlProcedure { name: Text, variables: Items<Text> },
    /// The body of a block. Its part is a statement.
    PlBody,
    /// An empty statement.
    PlEmpty,
    /// `begin` to `end`. Its parts are statements.
    PlBegin,
    /// Its parts are the condition and the statement.
    PlIf,
    /// Its parts are the condition and the statement.
    PlWhile,
    /// The assignment to a variable. Its part is the right side.
    PlAssign(Text),
    /// `call` of a name.
    PlCall(Text),
    /// `!`, which writes a number. Its part is an expression.
    PlWrite,
    /// `odd`. Its part is an expression.
    PlOdd,
    /// An operator or a comparison with its two operands.
    PlBinary(Operator),
    /// The sign `+`. Its part is a term.
    PlPlus,
    /// The sign `-`. Its part is a term.
    PlMinus,
    /// The name of a variable in an expression.
    PlName(Text),
    /// A number as it is written, or the value of a constant's name.
    PlNumber(i64),
}

/// A variable that a node sees: its name, how many blocks outward it is declared, and its slot there.
#[derive(Drop)]
pub struct Visible {
    pub name: Text,
    pub up: u32,
    pub slot: u32,
}
