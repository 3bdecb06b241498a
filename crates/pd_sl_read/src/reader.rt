//! The reader: a word at a time, with a stack of what is open and one list of nodes that only grows.
ghost use Rattle.std.specs.Prelude.{◌≡◌, ◌<◌, ◌+◌, ◌++◌, ◌∷◌, ◌^◌, [], length, option_map, Some, None, IfOk, OnOk, Ok, Err, MatchBool, MatchOption};
ghost use Rattle.pd_sl_read.specs.Held.{head_taken, fixed_taken, finished, begun, node, holding, folded, term_folded, arithmetic_folded, logic_term_folded, expression_folded, or_waits, and_waits, compare_waits, sum_waits, product_waits, fresh, head_of, counted, counted_top, returning, returning_top, loops, in_loop, in_loop_top, assignments_ended, statement_ended, closed, separated, ended, compared, operated, called, named, literal, operand, called_empty, first_argument, block_done, block_closed, inside, after_then, after_return, block_opened, taken, taken_within, parameters_in, count_of, HasRoom};

use crate::parts::{Block, Frame, Head, Keyword, Level, Levels, Mode, Part, Shape, Word};
use pd_sections::Rule;
use pd_tree::Operator;
use pd_turn::Node;
use std::alloc::{AllocError, Global};
use std::marker::Model;

/// The most brackets and right sides of assignments that may be open.
const MOST_DEPTH: usize = 200;

/// What has been read of a source: what is open, and the nodes so far, each after its parts.
#[derive(Drop)]
pub struct Reader {
    mode: Mode,
    stack: Vec<Frame>,
    nodes: Vec<Node<Part>>,
}

impl Model for Reader {
    ghost use Rattle.std.specs.Prelude.{reverse};
    ghost use Rattle.pd_sl_read.specs.Held.{Held};

    ghost Value = { Held };

    ghost view = { λ r. record { mode = r.mode; stack = reverse r.stack.items; nodes = r.nodes.items } };
}

/// A level at which nothing waits.
fn quiet(first: u32) -> Level
    ensures { result ≡ record { first = first; waits = None } }
{
    Level { first, waits: None }
}

/// A level at which an operator waits for its right side.
fn waiting(first: u32, shape: Shape) -> Level
    ensures { result ≡ record { first = first; waits = Some shape } }
{
    Level {
        first,
        waits: Some(shape),
    }
}

/// Levels at which nothing waits, with an operand that comes at this token.
fn fresh(at: u32) -> Levels
    ensures { result ≡ fresh at }
{
    let level = quiet(at);
    Levels {
        or: level,
        and: level,
        compare: level,
        sum: level,
        product: level,
        operand: at,
    }
}

/// What the block after a condition belongs to.
fn head_of(keyword: Keyword) -> Head
    ensures { result ≡ head_of keyword }
{
    match keyword {
        Keyword::While => Head::While,
        Keyword::If => Head::Then,
    }
}

/// A block with one statement more; any other frame as it was.
fn counted(frame: Frame) -> Frame
    requires { count_of frame + 2 < 2 ^ 32 }
    ensures { result ≡ counted frame }
{
    match frame {
        Frame::Block(block) => Frame::Block(Block {
            head: block.head,
            first: block.first,
            brace: block.brace,
            statements: block.statements + 1,
            value_of: None,
            in_loop: block.in_loop,
        }),
        other => other,
    }
}

/// A block in which the value of a `return` is read; any other frame as it was.
fn returning(first: u32, frame: Frame) -> Frame
    ensures { result ≡ returning first frame }
{
    match frame {
        Frame::Block(block) => Frame::Block(Block {
            head: block.head,
            first: block.first,
            brace: block.brace,
            statements: block.statements,
            value_of: Some(first),
            in_loop: block.in_loop,
        }),
        other => other,
    }
}

/// Whether a block with this head stands in a loop, where what is around does or doesn't.
fn loops(head: Head, around: bool) -> bool
    ensures { result ≡ loops head around }
{
    match head {
        Head::Function(_) => false,
        Head::While => true,
        Head::Then | Head::Else => around,
    }
}

/// The value of a number's node; a number past 64 bits is refused elsewhere.
fn literal(value: Option<i64>) -> i64
    ensures { result ≡ literal value }
{
    match value {
        None => i64::MAX,
        Some(n) => n,
    }
}

impl Reader {
    /// A reader before the first token.
    pub fn new(alloc: Global) -> Reader
        ensures { result ≡ begun }
    {
        Reader {
            mode: Mode::Start,
            stack: Vec::new(alloc),
            nodes: Vec::new(alloc),
        }
    }

    fn push(&mut self, shape: Shape, first: u32, end: u32, parts: u32) -> Result<(), AllocError>
        ensures { OnOk result (self.new ≡ holding self.old.mode self.old.stack (self.old.nodes ++ node shape first end parts ∷ [])) }
    {
        self.nodes.push(Node {
            what: Part { shape, first, end },
            parts,
        })?;
        Ok(())
    }

    fn fold(&mut self, level: Level, end: u32) -> Result<(), AllocError>
        ensures { OnOk result (self.new ≡ holding self.old.mode self.old.stack (folded level end self.old.nodes)) }
    {
        match level.waits {
            None => Ok(()),
            Some(shape) => self.push(shape, level.first, end, 2),
        }
    }

    fn fold_arithmetic(&mut self, levels: Levels, end: u32) -> Result<(), AllocError>
        ensures { OnOk result (self.new ≡ holding self.old.mode self.old.stack (arithmetic_folded levels end self.old.nodes)) }
    {
        self.fold(levels.product, end)?;
        self.fold(levels.sum, end)
    }

    fn fold_logic_term(&mut self, levels: Levels, end: u32) -> Result<(), AllocError>
        ensures { OnOk result (self.new ≡ holding self.old.mode self.old.stack (logic_term_folded levels end self.old.nodes)) }
    {
        self.fold_arithmetic(levels, end)?;
        self.fold(levels.compare, end)?;
        self.fold(levels.and, end)
    }

    fn fold_expression(&mut self, levels: Levels, end: u32) -> Result<(), AllocError>
        ensures { OnOk result (self.new ≡ holding self.old.mode self.old.stack (expression_folded levels end self.old.nodes)) }
    {
        self.fold_logic_term(levels, end)?;
        self.fold(levels.or, end)
    }

    /// The innermost block has one statement more.
    fn count_statement(&mut self) -> Result<(), AllocError>
        requires room { HasRoom 2 self.old.stack }
        ensures { OnOk result (self.new ≡ holding self.old.mode (counted_top self.old.stack) self.old.nodes) }
    {
        if let Some(top) = self.stack.pop() {
            self.stack.push(counted(top))?;
        }
        Ok(())
    }

    /// In the innermost block the value of a `return` is read.
    fn begin_value(&mut self, first: u32) -> Result<(), AllocError>
        ensures { OnOk result (self.new ≡ holding self.old.mode (returning_top first self.old.stack) self.old.nodes) }
    {
        if let Some(top) = self.stack.pop() {
            self.stack.push(returning(first, top))?;
        }
        Ok(())
    }

    /// Whether the innermost frame is a block in a loop.
    fn in_loop(&self) -> bool
        ensures { result ≡ in_loop_top self.now.stack }
    {
        match self.stack.last() {
            Some(Frame::Block(block)) => block.in_loop,
            _ => false,
        }
    }

    /// The assignments whose right sides have been read are done.
    fn end_assignments(&mut self, at: u32) -> Result<(), AllocError>
        ensures mode { OnOk result (self.new.mode ≡ self.old.mode) }
        ensures rest { OnOk result (assignments_ended at self.old.stack self.old.nodes ≡ (self.new.stack, self.new.nodes)) }
    {
        while let Some(top) = self.stack.pop() {
            let Frame::Assignment(levels) = top else {
                self.stack.push(top)?;
                return Ok(());
            };
            self.push(Shape::Assign, levels.operand, at, 1)?;
            self.fold_expression(levels, at)?;
        }
        Ok(())
    }

    /// `;` after an expression.
    fn end_statement(&mut self, at: u32) -> Result<bool, AllocError>
        requires room { HasRoom 2 self.old.stack }
        ensures { IfOk result (λ b. MatchBool b (statement_ended at self.old.stack self.old.nodes ≡ Some self.new) (statement_ended at self.old.stack self.old.nodes ≡ None)) }
    {
        let Some(Frame::Block(block)) = self.stack.pop() else {
            return Ok(false);
        };
        if let Some(first) = block.value_of {
            self.push(Shape::Return, first, at, 1)?;
        }
        self.stack.push(counted(Frame::Block(block)))?;
        self.mode = Mode::Inside;
        Ok(true)
    }

    /// `)` after an expression.
    fn close(&mut self, at: u32) -> Result<bool, AllocError>
        requires room { HasRoom 2 self.old.stack }
        requires few { at + 2 < 2 ^ 32 }
        ensures { IfOk result (λ b. MatchBool b (closed at self.old.stack self.old.nodes ≡ Some self.new) (closed at self.old.stack self.old.nodes ≡ None)) }
    {
        match self.stack.pop() {
            Some(Frame::Condition(keyword, first)) => {
                self.mode = Mode::BeforeBlock(head_of(keyword), first);
            }
            Some(Frame::Parens(levels)) => {
                self.mode = Mode::Has(levels);
            }
            Some(Frame::Arguments(levels, count)) => {
                self.push(Shape::Call, levels.operand, at + 1, count + 2)?;
                self.mode = Mode::Callable(levels);
            }
            _ => return Ok(false),
        }
        Ok(true)
    }

    /// `,` after an expression.
    fn separate(&mut self, at: u32) -> Result<bool, AllocError>
        requires room { HasRoom 2 self.old.stack }
        requires few { at + 2 < 2 ^ 32 }
        ensures { IfOk result (λ b. MatchBool b (separated at self.old.stack self.old.nodes ≡ Some self.new) (separated at self.old.stack self.old.nodes ≡ None)) }
    {
        let Some(Frame::Arguments(levels, count)) = self.stack.pop() else {
            return Ok(false);
        };
        self.stack.push(Frame::Arguments(levels, count + 1))?;
        self.mode = Mode::Wants(fresh(at + 1));
        Ok(true)
    }

    /// A token that ends an expression.
    fn end(&mut self, at: u32, word: Word) -> Result<bool, AllocError>
        requires room { HasRoom 2 self.old.stack }
        requires few { at + 2 < 2 ^ 32 }
        ensures { IfOk result (λ b. MatchBool b (ended at word self.old.stack self.old.nodes ≡ Some self.new) (ended at word self.old.stack self.old.nodes ≡ None)) }
    {
        self.end_assignments(at)?;
        match word {
            Word::Semicolon => self.end_statement(at),
            Word::Close => self.close(at),
            Word::Comma => self.separate(at),
            _ => Ok(false),
        }
    }

    /// A comparison, of which there is one at most.
    fn compare(&mut self, at: u32, operator: Operator, levels: Levels) -> Result<bool, AllocError>
        requires few { at + 2 < 2 ^ 32 }
        ensures { IfOk result (λ b. MatchBool b (compared levels.compare.waits at operator levels self.old.stack self.old.nodes ≡ Some self.new) (compared levels.compare.waits at operator levels self.old.stack self.old.nodes ≡ None)) }
    {
        if levels.compare.waits.is_some() {
            return Ok(false);
        }
        self.fold_arithmetic(levels, at)?;
        let next = quiet(at + 1);
        self.mode = Mode::Wants(Levels {
            or: levels.or,
            and: levels.and,
            compare: waiting(levels.compare.first, Shape::Binary(operator)),
            sum: next,
            product: next,
            operand: at + 1,
        });
        Ok(true)
    }

    /// `||` after an operand.
    fn operate_or(&mut self, at: u32, levels: Levels) -> Result<(), AllocError>
        requires few { at + 2 < 2 ^ 32 }
        ensures { OnOk result (self.new ≡ holding (Mode.Wants (or_waits levels (at + 1))) self.old.stack (expression_folded levels at self.old.nodes)) }
    {
        self.fold_expression(levels, at)?;
        let next = quiet(at + 1);
        self.mode = Mode::Wants(Levels {
            or: waiting(levels.or.first, Shape::Or),
            and: next,
            compare: next,
            sum: next,
            product: next,
            operand: at + 1,
        });
        Ok(())
    }

    /// `&&` after an operand.
    fn operate_and(&mut self, at: u32, levels: Levels) -> Result<(), AllocError>
        requires few { at + 2 < 2 ^ 32 }
        ensures { OnOk result (self.new ≡ holding (Mode.Wants (and_waits levels (at + 1))) self.old.stack (logic_term_folded levels at self.old.nodes)) }
    {
        self.fold_logic_term(levels, at)?;
        let next = quiet(at + 1);
        self.mode = Mode::Wants(Levels {
            or: levels.or,
            and: waiting(levels.and.first, Shape::And),
            compare: next,
            sum: next,
            product: next,
            operand: at + 1,
        });
        Ok(())
    }

    /// `+` or `-` after an operand.
    fn operate_sum(&mut self, at: u32, operator: Operator, levels: Levels) -> Result<(), AllocError>
        requires few { at + 2 < 2 ^ 32 }
        ensures { OnOk result (self.new ≡ holding (Mode.Wants (sum_waits operator levels (at + 1))) self.old.stack (arithmetic_folded levels at self.old.nodes)) }
    {
        self.fold_arithmetic(levels, at)?;
        self.mode = Mode::Wants(Levels {
            or: levels.or,
            and: levels.and,
            compare: levels.compare,
            sum: waiting(levels.sum.first, Shape::Binary(operator)),
            product: quiet(at + 1),
            operand: at + 1,
        });
        Ok(())
    }

    /// `*` or `/` after an operand.
    fn operate_product(
        &mut self,
        at: u32,
        operator: Operator,
        levels: Levels,
    ) -> Result<(), AllocError>
        requires few { at + 2 < 2 ^ 32 }
        ensures { OnOk result (self.new ≡ holding (Mode.Wants (product_waits operator levels (at + 1))) self.old.stack (term_folded levels at self.old.nodes)) }
    {
        self.fold(levels.product, at)?;
        self.mode = Mode::Wants(Levels {
            or: levels.or,
            and: levels.and,
            compare: levels.compare,
            sum: levels.sum,
            product: waiting(levels.product.first, Shape::Binary(operator)),
            operand: at + 1,
        });
        Ok(())
    }

    /// A token after an operand.
    fn operate(&mut self, at: u32, word: Word, levels: Levels) -> Result<bool, AllocError>
        requires room { HasRoom 2 self.old.stack }
        requires few { at + 2 < 2 ^ 32 }
        ensures { IfOk result (λ b. MatchBool b (operated at word levels self.old.stack self.old.nodes ≡ Some self.new) (operated at word levels self.old.stack self.old.nodes ≡ None)) }
    {
        match word {
            Word::Or => self.operate_or(at, levels)?,
            Word::And => self.operate_and(at, levels)?,
            Word::Compares(operator) => return self.compare(at, operator, levels),
            Word::Adds(operator) => self.operate_sum(at, operator, levels)?,
            Word::Multiplies(operator) => self.operate_product(at, operator, levels)?,
            _ => {
                self.fold_expression(levels, at)?;
                return self.end(at, word);
            }
        }
        Ok(true)
    }

    /// A token after an operand that may be called.
    fn call(&mut self, at: u32, word: Word, levels: Levels) -> Result<bool, AllocError>
        requires room { HasRoom 2 self.old.stack }
        requires few { at + 2 < 2 ^ 32 }
        ensures { IfOk result (λ b. MatchBool b (called at word levels self.old.stack self.old.nodes ≡ Some self.new) (called at word levels self.old.stack self.old.nodes ≡ None)) }
    {
        if let Word::Open = word {
            self.stack.push(Frame::Arguments(levels, 0))?;
            self.mode = Mode::MayWant;
            return Ok(true);
        }
        self.operate(at, word, levels)
    }

    /// A token after a name.
    fn name(&mut self, at: u32, word: Word, levels: Levels) -> Result<bool, AllocError>
        requires room { HasRoom 2 self.old.stack }
        requires few { at + 2 < 2 ^ 32 }
        ensures { IfOk result (λ b. MatchBool b (named at word levels self.old.stack self.old.nodes ≡ Some self.new) (named at word levels self.old.stack self.old.nodes ≡ None)) }
    {
        if let Word::Becomes = word {
            self.stack.push(Frame::Assignment(levels))?;
            self.mode = Mode::Wants(fresh(at + 1));
            return Ok(true);
        }
        self.push(Shape::Name, levels.operand, at, 0)?;
        self.call(at, word, levels)
    }

    /// A token where an operand comes.
    fn operand(&mut self, at: u32, word: Word, levels: Levels) -> Result<bool, AllocError>
        requires few { at + 2 < 2 ^ 32 }
        ensures { IfOk result (λ b. MatchBool b (operand at word levels self.old.stack self.old.nodes ≡ Some self.new) (operand at word levels self.old.stack self.old.nodes ≡ None)) }
    {
        match word {
            Word::Name => {
                self.mode = Mode::Named(levels);
            }
            Word::Number(value) => {
                self.push(Shape::Number(literal(value)), at, at + 1, 0)?;
                self.mode = Mode::Has(levels);
            }
            Word::Text => {
                self.push(Shape::Text, at, at + 1, 0)?;
                self.mode = Mode::Has(levels);
            }
            Word::Open => {
                self.stack.push(Frame::Parens(levels))?;
                self.mode = Mode::Wants(fresh(at + 1));
            }
            _ => return Ok(false),
        }
        Ok(true)
    }

    /// `)` right after the `(` of a call.
    fn close_empty(&mut self, at: u32) -> Result<bool, AllocError>
        requires few { at + 2 < 2 ^ 32 }
        ensures { IfOk result (λ b. MatchBool b (called_empty at self.old.stack self.old.nodes ≡ Some self.new) (called_empty at self.old.stack self.old.nodes ≡ None)) }
    {
        let Some(Frame::Arguments(levels, _)) = self.stack.pop() else {
            return Ok(false);
        };
        self.push(Shape::Call, levels.operand, at + 1, 1)?;
        self.mode = Mode::Callable(levels);
        Ok(true)
    }

    /// A token after the `(` of a call.
    fn begin_arguments(&mut self, at: u32, word: Word) -> Result<bool, AllocError>
        requires few { at + 2 < 2 ^ 32 }
        ensures { IfOk result (λ b. MatchBool b (first_argument at word self.old.stack self.old.nodes ≡ Some self.new) (first_argument at word self.old.stack self.old.nodes ≡ None)) }
    {
        if let Word::Close = word {
            return self.close_empty(at);
        }
        self.operand(at, word, fresh(at))
    }

    /// The nodes of a block that ends before this token, and of what it belongs to.
    fn finish_block(&mut self, at: u32, block: Block) -> Result<(), AllocError>
        requires room { HasRoom 2 self.old.stack }
        requires few { at + 2 < 2 ^ 32 }
        ensures { OnOk result (self.new ≡ block_done at block.head block self.old.stack self.old.nodes) }
    {
        let end = at + 1;
        if let Head::Function(parameters) = block.head {
            self.push(Shape::Body, block.brace, end, block.statements)?;
            self.push(Shape::Function(parameters), block.first, end, 1)?;
            self.mode = Mode::Between;
            return Ok(());
        }
        self.push(Shape::Block, block.brace, end, block.statements)?;
        match block.head {
            Head::Then => {
                self.mode = Mode::AfterThen(block.first);
                return Ok(());
            }
            Head::While => self.push(Shape::While, block.first, end, 2)?,
            _ => self.push(Shape::If, block.first, end, 3)?,
        }
        self.count_statement()?;
        self.mode = Mode::Inside;
        Ok(())
    }

    /// `}` after the statements of a block.
    fn close_block(&mut self, at: u32) -> Result<bool, AllocError>
        requires room { HasRoom 2 self.old.stack }
        requires few { at + 2 < 2 ^ 32 }
        ensures { IfOk result (λ b. MatchBool b (block_closed at self.old.stack self.old.nodes ≡ Some self.new) (block_closed at self.old.stack self.old.nodes ≡ None)) }
    {
        let Some(Frame::Block(block)) = self.stack.pop() else {
            return Ok(false);
        };
        self.finish_block(at, block)?;
        Ok(true)
    }

    /// `break`, `continue` or `debugger`.
    fn jump(&mut self, at: u32, shape: Shape) -> Result<(), AllocError>
        requires few { at + 2 < 2 ^ 32 }
        ensures { OnOk result (self.new ≡ holding Mode.BeforeSemicolon self.old.stack (self.old.nodes ++ node shape at (at + 1) 0 ∷ [])) }
    {
        self.push(shape, at, at + 1, 0)?;
        self.mode = Mode::BeforeSemicolon;
        Ok(())
    }

    /// A token where a statement or `}` comes.
    fn inside(&mut self, at: u32, word: Word) -> Result<bool, AllocError>
        requires room { HasRoom 2 self.old.stack }
        requires few { at + 2 < 2 ^ 32 }
        ensures { IfOk result (λ b. MatchBool b (inside at word self.old.stack self.old.nodes ≡ Some self.new) (inside at word self.old.stack self.old.nodes ≡ None)) }
    {
        match word {
            Word::CloseBlock => return self.close_block(at),
            Word::WhileKey => {
                self.mode = Mode::AfterKey(Keyword::While, at);
            }
            Word::IfKey => {
                self.mode = Mode::AfterKey(Keyword::If, at);
            }
            Word::ReturnKey => {
                self.mode = Mode::AfterReturn(at);
            }
            Word::BreakKey | Word::ContinueKey => {
                if !self.in_loop() {
                    return Ok(false);
                }
                let shape = match word {
                    Word::BreakKey => Shape::Break,
                    _ => Shape::Continue,
                };
                self.jump(at, shape)?;
            }
            Word::DebuggerKey => self.jump(at, Shape::Debugger)?,
            _ => return self.operand(at, word, fresh(at)),
        }
        Ok(true)
    }

    /// A token after the block of an `if`.
    fn after_then(&mut self, at: u32, word: Word, first: u32) -> Result<bool, AllocError>
        requires room { HasRoom 3 self.old.stack }
        requires few { at + 2 < 2 ^ 32 }
        ensures { IfOk result (λ b. MatchBool b (after_then at word first self.old.stack self.old.nodes ≡ Some self.new) (after_then at word first self.old.stack self.old.nodes ≡ None)) }
    {
        if let Word::ElseKey = word {
            self.mode = Mode::BeforeBlock(Head::Else, first);
            return Ok(true);
        }
        self.push(Shape::If, first, at, 2)?;
        self.count_statement()?;
        self.inside(at, word)
    }

    /// A token after `return`.
    fn after_return(&mut self, at: u32, word: Word, first: u32) -> Result<bool, AllocError>
        requires room { HasRoom 2 self.old.stack }
        requires few { at + 2 < 2 ^ 32 }
        ensures { IfOk result (λ b. MatchBool b (after_return at word first self.old.stack self.old.nodes ≡ Some self.new) (after_return at word first self.old.stack self.old.nodes ≡ None)) }
    {
        if let Word::Semicolon = word {
            self.push(Shape::Return, first, at, 0)?;
            self.count_statement()?;
            self.mode = Mode::Inside;
            return Ok(true);
        }
        self.begin_value(first)?;
        self.operand(at, word, fresh(at))
    }

    /// A block begins at this token.
    fn open_block(&mut self, at: u32, head: Head, first: u32) -> Result<(), AllocError>
        ensures { OnOk result (self.new ≡ holding Mode.Inside (block_opened at head first self.old.stack ∷ self.old.stack) self.old.nodes) }
    {
        let in_loop = loops(head, self.in_loop());
        self.stack.push(Frame::Block(Block {
            head,
            first,
            brace: at,
            statements: 0,
            value_of: None,
            in_loop,
        }))?;
        self.mode = Mode::Inside;
        Ok(())
    }

    /// A token between functions or in the head of one.
    fn head(&mut self, at: u32, word: Word) -> Result<bool, AllocError>
        requires parameters { parameters_in self.old.mode + 2 < 2 ^ 32 }
        ensures { IfOk result (λ b. MatchBool b (head_taken self.old.mode at word self.old.stack self.old.nodes ≡ Some self.new) (head_taken self.old.mode at word self.old.stack self.old.nodes ≡ None)) }
    {
        self.mode = match (self.mode, word) {
            (Mode::Start | Mode::Between, Word::FunctionKey) => Mode::AfterFunctionKey(at),
            (Mode::AfterFunctionKey(first), Word::Name) => Mode::AfterFunctionName(first),
            (Mode::AfterFunctionName(first), Word::Open) => Mode::FirstParameter(first),
            (Mode::FirstParameter(first), Word::Close) => Mode::BeforeBlock(
                Head::Function(0),
                first,
            ),
            (Mode::FirstParameter(first), Word::Name) => Mode::AfterParameter(first, 1),
            (Mode::AfterParameter(first, count), Word::Close) => Mode::BeforeBlock(
                Head::Function(count),
                first,
            ),
            (Mode::AfterParameter(first, count), Word::Comma) => Mode::AfterComma(first, count),
            (Mode::AfterComma(first, count), Word::Name) => Mode::AfterParameter(first, count + 1),
            _ => return Ok(false),
        };
        Ok(true)
    }

    /// A token at a place where just one may come.
    fn fixed(&mut self, at: u32, word: Word) -> Result<bool, AllocError>
        requires room { HasRoom 2 self.old.stack }
        requires few { at + 2 < 2 ^ 32 }
        ensures { IfOk result (λ b. MatchBool b (fixed_taken self.old.mode at word self.old.stack self.old.nodes ≡ Some self.new) (fixed_taken self.old.mode at word self.old.stack self.old.nodes ≡ None)) }
    {
        match (self.mode, word) {
            (Mode::AfterKey(keyword, first), Word::Open) => {
                self.stack.push(Frame::Condition(keyword, first))?;
                self.mode = Mode::Wants(fresh(at + 1));
            }
            (Mode::BeforeBlock(head, first), Word::OpenBlock) => self.open_block(at, head, first)?,
            (Mode::BeforeSemicolon, Word::Semicolon) => {
                self.count_statement()?;
                self.mode = Mode::Inside;
            }
            _ => return Ok(false),
        }
        Ok(true)
    }

    /// Takes the next token, if it may come here. `at` is its number, counted from 0.
    /// After a token that may not come, the contract says nothing of the reader.
    fn take(&mut self, at: u32, word: Word) -> Result<bool, AllocError>
        requires room { HasRoom 3 self.old.stack }
        requires few { at + 2 < 2 ^ 32 }
        requires parameters { parameters_in self.old.mode + 2 < 2 ^ 32 }
        ensures { IfOk result (λ b. MatchBool b (taken at self.old word ≡ Some self.new) (taken at self.old word ≡ None)) }
    {
        match self.mode {
            Mode::Inside => self.inside(at, word),
            Mode::AfterThen(first) => self.after_then(at, word, first),
            Mode::AfterReturn(first) => self.after_return(at, word, first),
            Mode::Wants(levels) => self.operand(at, word, levels),
            Mode::MayWant => self.begin_arguments(at, word),
            Mode::Named(levels) => self.name(at, word, levels),
            Mode::Callable(levels) => self.call(at, word, levels),
            Mode::Has(levels) => self.operate(at, word, levels),
            Mode::AfterKey(..) | Mode::BeforeBlock(..) | Mode::BeforeSemicolon => {
                self.fixed(at, word)
            }
            Mode::Start
            | Mode::Between
            | Mode::AfterFunctionKey(_)
            | Mode::AfterFunctionName(_)
            | Mode::FirstParameter(_)
            | Mode::AfterParameter(..)
            | Mode::AfterComma(..) => self.head(at, word),
        }
    }

    /// Takes the next token, or answers the rule that it breaks: it may not come here, it is a number past
    /// 64 bits, or more than 200 brackets and right sides of assignments are open. `at` is its number, counted from 0.
    pub fn take_within(&mut self, at: u32, word: Word) -> Result<Option<Rule>, AllocError>
        requires room { HasRoom 3 self.old.stack }
        requires few { at + 2 < 2 ^ 32 }
        requires parameters { parameters_in self.old.mode + 2 < 2 ^ 32 }
        ensures { IfOk result (λ broken. MatchOption broken (taken_within at self.old word ≡ Ok self.new) (λ rule. taken_within at self.old word ≡ Err rule)) }
    {
        if !self.take(at, word)? {
            return Ok(Some(Rule::Unexpected));
        }
        if let Word::Number(None) = word {
            return Ok(Some(Rule::LiteralTooLarge));
        }
        if self.stack.len() > MOST_DEPTH {
            return Ok(Some(Rule::TooDeep));
        }
        Ok(None)
    }

    /// The nodes of the functions, each after its parts, where there is one and the last one is whole.
    pub fn finish(self) -> Option<Vec<Node<Part>>>
        ensures { option_map (λ nodes. nodes.items) result ≡ finished self }
    {
        match self.mode {
            Mode::Between => Some(self.nodes),
            _ => None,
        }
    }
}
