//! Words, what is open, and the nodes of a tree.
use pd_tree::Operator;

/// A token as the grammar sees it. A number past 64 bits has no value.
#[derive(Clone, Copy, Drop)]
pub enum Word {
    Name,
    Number(Option<i64>),
    Text,
    Or,
    And,
    Compares(Operator),
    Adds(Operator),
    Multiplies(Operator),
    Becomes,
    Open,
    Close,
    OpenBlock,
    CloseBlock,
    Comma,
    Semicolon,
    FunctionKey,
    WhileKey,
    IfKey,
    ElseKey,
    ReturnKey,
    BreakKey,
    ContinueKey,
    DebuggerKey,
}

/// What a node is. A function has the number of its parameters.
#[derive(Clone, Copy, Drop)]
pub enum Shape {
    Function(u32),
    Body,
    Block,
    If,
    While,
    Return,
    Break,
    Continue,
    Debugger,
    Or,
    And,
    Binary(Operator),
    Call,
    Assign,
    Name,
    Number(i64),
    Text,
}

/// A node's shape and its tokens, from the first up to `end`, by their numbers in the source.
#[derive(Clone, Copy, Drop)]
pub struct Part {
    pub shape: Shape,
    pub first: u32,
    pub end: u32,
}

/// One level of an expression: its first token, and the operator whose left side waits there, if any.
#[derive(Clone, Copy, Drop)]
pub struct Level {
    pub first: u32,
    pub waits: Option<Shape>,
}

/// The levels of an expression from the loosest operator to the tightest, and the operand's first token.
#[derive(Clone, Copy, Drop)]
pub struct Levels {
    pub or: Level,
    pub and: Level,
    pub compare: Level,
    pub sum: Level,
    pub product: Level,
    pub operand: u32,
}

/// The keyword of a statement with a condition.
#[derive(Clone, Copy, Drop)]
pub enum Keyword {
    While,
    If,
}

/// What a block belongs to. A function has the number of its parameters.
#[derive(Clone, Copy, Drop)]
pub enum Head {
    Function(u32),
    While,
    /// The first block of an `if`.
    Then,
    /// The second block of an `if`.
    Else,
}

/// An open block: the first token of what it belongs to, its own first token, the number of its statements
/// so far, the first token of a `return` whose value is being read, and whether it stands inside a loop.
#[derive(Clone, Copy, Drop)]
pub struct Block {
    pub head: Head,
    pub first: u32,
    pub brace: u32,
    pub statements: u32,
    pub value_of: Option<u32>,
    pub in_loop: bool,
}

/// What is open and nests.
#[derive(Clone, Copy, Drop)]
pub enum Frame {
    /// A `{`.
    Block(Block),
    /// The `(` of a condition, with its statement's first token.
    Condition(Keyword, u32),
    /// A `(` in an expression, with what waits around it.
    Parens(Levels),
    /// The `(` of a call, with what waits around it and the number of its arguments so far.
    Arguments(Levels, u32),
    /// The right side of an assignment, with what waits around it.
    Assignment(Levels),
}

/// Where the reader stands. A number is the first token of the function or statement, and the second one
/// the number of parameters so far.
#[derive(Clone, Copy, Drop)]
pub enum Mode {
    Start,
    Between,
    AfterFunctionKey(u32),
    AfterFunctionName(u32),
    FirstParameter(u32),
    AfterParameter(u32, u32),
    AfterComma(u32, u32),
    Inside,
    AfterThen(u32),
    AfterKey(Keyword, u32),
    AfterReturn(u32),
    BeforeBlock(Head, u32),
    BeforeSemicolon,
    /// An operand comes next.
    Wants(Levels),
    /// The first argument comes next, or none.
    MayWant,
    /// An operand has been read: a name, one that may be called, any other.
    Named(Levels),
    Callable(Levels),
    Has(Levels),
}
