//! Words, what is open, and the nodes of a tree.
use crate::names::Names;
use pd_tree::{Meaning, Operator};

/// A token as the grammar sees it. A number past 64 bits has no value.
#[derive(Clone, Copy, Drop)]
pub enum Word {
    Name,
    Number(Option<i64>),
    Compares(Operator),
    Adds(Operator),
    Multiplies(Operator),
    Becomes,
    Writes,
    Open,
    Close,
    Comma,
    Semicolon,
    Period,
    ConstKey,
    VarKey,
    ProcedureKey,
    CallKey,
    BeginKey,
    EndKey,
    IfKey,
    ThenKey,
    WhileKey,
    DoKey,
    OddKey,
}

/// What a node is. The main block and a procedure have the numbers of their block's constants and of its variables;
/// a name that is assigned or read has its meaning, and one of a constant is its number.
#[derive(Clone, Copy, Drop)]
pub enum Shape {
    Main(u32, u32),
    Procedure(u32, u32),
    Body,
    Empty,
    Begin,
    If,
    While,
    Assign(Meaning),
    Call,
    Write,
    Odd,
    Binary(Operator),
    Plus,
    Minus,
    Name(Meaning),
    Number(i64),
}

/// A node's shape and its tokens, from the first up to `end`, by their numbers in the source.
#[derive(Clone, Copy, Drop)]
pub struct Part {
    pub shape: Shape,
    pub first: u32,
    pub end: u32,
}

/// What stands before a term: nothing, a sign, or a left operand with its operator.
#[derive(Clone, Copy, Drop)]
pub enum Before {
    Nothing,
    Sign(Operator),
    Left(Operator),
}

/// What of an expression waits for its term and for its factor, with the first tokens of the expression and of the term.
#[derive(Clone, Copy, Drop)]
pub struct Levels {
    pub first: u32,
    pub sum: Before,
    pub term: u32,
    pub product: Option<Operator>,
}

/// The keyword of a statement with a condition.
#[derive(Clone, Copy, Drop)]
pub enum Keyword {
    If,
    While,
}

/// What an expression is read for, with the first token of its statement or of its condition.
#[derive(Clone, Copy, Drop)]
pub enum Purpose {
    /// The right side of an assignment to this variable.
    Assigned(u32, Meaning),
    /// What `!` writes.
    Written(u32),
    /// The operand of `odd`.
    Odd(u32),
    /// The left side of a comparison.
    Left(u32),
    /// The right side of this comparison.
    Right(u32, Operator),
}

/// What is open and nests.
#[derive(Clone, Copy, Drop)]
pub enum Frame {
    /// A `(`, with what waits around it.
    Parens(Levels),
    /// A `begin`: its first token, and the number of its whole statements so far.
    Sequence(u32, u32),
    /// An `if` or `while`, with its first token.
    Heading(Keyword, u32),
    /// The block of a procedure.
    Procedure,
}

/// An open block: its names, the numbers of its constants, variables and whole procedures so far, and the first token
/// after these.
#[derive(Drop)]
pub struct Block {
    pub names: Names,
    pub constants: u32,
    pub variables: u32,
    pub procedures: u32,
    pub behind: u32,
}

/// Where the reader stands. A number is the first token of the statement.
#[derive(Clone, Copy, Drop)]
pub enum Mode {
    /// At the beginning of a block.
    BlockStart,
    BeforeConstant,
    BeforeEqual,
    BeforeNumber,
    AfterConstant,
    AfterConstants,
    BeforeVariable,
    AfterVariable,
    /// After the variables, or after a procedure.
    AfterVariables,
    BeforeProcedure,
    AfterProcedure,
    BeforeStatement,
    BeforeBecomes(u32, Meaning),
    BeforeCallee(u32),
    /// After a statement that ends with `end` or a name.
    AfterStatement,
    BeforeCondition,
    BeforeExpression(Purpose),
    /// An operand comes next.
    Wants(Purpose, Levels),
    /// An operand has been read.
    Has(Purpose, Levels),
    /// After the period.
    Finished,
}
