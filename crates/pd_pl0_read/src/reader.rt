//! The reader: a word at a time, with a stack of what is open, the open blocks, and one list of nodes that only grows.
ghost use Rattle.std.specs.Prelude.{◌≡◌, ◌<◌, ◌+◌, ◌++◌, ◌∷◌, ◌^◌, [], length, option_map, reverse, Some, None, IfOk, OnOk, Ok, Err, MatchBool, MatchOption};
ghost use Rattle.pd_pl0_read.specs.Places.{node};
ghost use Rattle.pd_pl0_read.specs.Resolving.{literal, meaning_as, meaning_of, factor_as, factor_of};
ghost use Rattle.pd_pl0_read.specs.Held.{holding, more, fresh_block, found, found_at, found_from, with_constant, with_variable, with_procedure, declared_to, procedure_done, behind_of, body_node, fresh, signed_levels, sum_waits, product_waits, sign_of, term_folded, expression_folded, heading_shape, headings_ended, main_ended, procedure_ended, ended_in, statement_ended, condition_ended, purpose_ended, ended, operated, operand, expression, condition, statement, procedures, variables, constants, constant_taken, declaration_taken, fixed_taken, taken, begun, broken_declaring, broken_assigning, broken_calling, broken_reading, broken, broken_in, taken_within, finished};

use crate::names::{Declared, Found, Names};
use crate::parts::{Before, Block, Frame, Keyword, Levels, Mode, Part, Purpose, Shape, Word};
use pd_sections::Rule;
use pd_tree::{Meaning, Operator};
use pd_turn::Node;
use std::alloc::{AllocError, Global};
use std::marker::Model;

/// The most brackets, unfinished statements and procedures that may be open.
const MOST_DEPTH: usize = 200;

/// What has been read of a source: what is open, the blocks that are open, the name of the constant that is being
/// declared, and the nodes so far, each after its parts.
#[derive(Drop)]
pub struct Reader {
    mode: Mode,
    stack: Vec<Frame>,
    blocks: Vec<Block>,
    constant: Vec<u8>,
    nodes: Vec<Node<Part>>,
}

impl Model for Reader {
    ghost use Rattle.std.specs.Prelude.{reverse};
    ghost use Rattle.pd_pl0_read.specs.Held.{Held};

    ghost Value = { Held };

    ghost view = { λ r. record { mode = r.mode; stack = reverse r.stack.items; blocks = reverse r.blocks.items; constant = r.constant.items; nodes = r.nodes.items } };
}

/// A block whose declarations begin at this token.
fn fresh_block(alloc: Global, at: u32) -> Block
    ensures { result ≡ fresh_block at }
{
    Block {
        names: Names::new(alloc),
        constants: 0,
        variables: 0,
        procedures: 0,
        behind: at,
    }
}

/// What a visible name means, `up` blocks outward.
fn meaning_as(up: u32, what: Declared) -> Meaning
    ensures { result ≡ meaning_as up what }
{
    match what {
        Declared::Variable(slot) => Meaning::Local { up, slot },
        Declared::Constant(_) | Declared::Procedure => Meaning::Nothing,
    }
}

/// What a name means: a variable, or nothing.
fn meaning_of(found: Option<Found>) -> Meaning
    ensures { result ≡ meaning_of found }
{
    match found {
        None => Meaning::Nothing,
        Some(found) => meaning_as(found.up, found.what),
    }
}

/// What a name in a factor is: a constant is its number.
fn factor_of(found: Option<Found>) -> Shape
    ensures { result ≡ factor_of found }
{
    match found {
        None => Shape::Name(Meaning::Nothing),
        Some(found) => match found.what {
            Declared::Constant(value) => Shape::Number(value),
            what => Shape::Name(meaning_as(found.up, what)),
        },
    }
}

/// The value of a number's node; a number past 64 bits is refused elsewhere.
fn literal(value: Option<i64>) -> i64
    ensures { result ≡ literal value }
{
    match value {
        None => i64::MAX,
        Some(n) => n,
    }
}

/// Levels at which nothing waits, of an expression that begins at this token.
fn fresh(at: u32) -> Levels
    ensures { result ≡ fresh at }
{
    Levels {
        first: at,
        sum: Before::Nothing,
        term: at,
        product: None,
    }
}

/// A leading sign.
fn sign_of(operator: Operator) -> Shape
    ensures { result ≡ sign_of operator }
{
    match operator {
        Operator::Add => Shape::Plus,
        _ => Shape::Minus,
    }
}

/// The node of a statement with this keyword.
fn heading_shape(keyword: Keyword) -> Shape
    ensures { result ≡ heading_shape keyword }
{
    match keyword {
        Keyword::If => Shape::If,
        Keyword::While => Shape::While,
    }
}

/// The rule that a declaration of a name breaks.
fn broken_declaring(found: Option<Found>) -> Option<Rule>
    ensures { result ≡ broken_declaring found }
{
    match found {
        Some(found) if found.up == 0 => Some(Rule::Doubled),
        _ => None,
    }
}

/// The rule that an assignment to a name breaks.
fn broken_assigning(found: Option<Found>) -> Option<Rule>
    ensures { result ≡ broken_assigning found }
{
    match found {
        None => Some(Rule::Undeclared),
        Some(found) => match found.what {
            Declared::Variable(_) => None,
            Declared::Constant(_) | Declared::Procedure => Some(Rule::NotAssignable),
        },
    }
}

/// The rule that a `call` of a name breaks.
fn broken_calling(found: Option<Found>) -> Option<Rule>
    ensures { result ≡ broken_calling found }
{
    match found {
        None => None,
        Some(found) => match found.what {
            Declared::Procedure => None,
            Declared::Constant(_) | Declared::Variable(_) => Some(Rule::NotAProcedure),
        },
    }
}

/// The rule that a name in a factor breaks.
fn broken_reading(found: Option<Found>) -> Option<Rule>
    ensures { result ≡ broken_reading found }
{
    match found {
        None => Some(Rule::Undeclared),
        Some(found) => match found.what {
            Declared::Procedure => Some(Rule::NotAValue),
            Declared::Constant(_) | Declared::Variable(_) => None,
        },
    }
}

/// The visible declaration of a name in these blocks, of which the last is the innermost.
fn find_in(blocks: &[Block], name: &[u8]) -> Option<Found>
    requires { length blocks.now < 2 ^ 32 }
    ensures { result ≡ found name.now (reverse blocks.now) }
{
    let mut left = blocks.len();
    let mut up = 0;
    while left > 0 {
        left -= 1;
        if let Some(what) = blocks[left].names.find(name) {
            return Some(Found { up, what });
        }
        up += 1;
    }
    None
}

impl Reader {
    /// A reader before the first token.
    pub fn new(alloc: Global) -> Result<Reader, AllocError>
        ensures { IfOk result (λ reader. reader ≡ begun) }
    {
        let mut blocks = Vec::new(alloc);
        blocks.push(fresh_block(alloc, 0))?;
        Ok(Reader {
            mode: Mode::BlockStart,
            stack: Vec::new(alloc),
            blocks,
            constant: Vec::new(alloc),
            nodes: Vec::new(alloc),
        })
    }

    fn push(&mut self, shape: Shape, first: u32, end: u32, parts: u32) -> Result<(), AllocError>
        ensures { OnOk result (self.new ≡ holding self.old.mode self.old.stack self.old.blocks self.old.constant (self.old.nodes ++ node shape first end parts ∷ [])) }
    {
        self.nodes.push(Node {
            what: Part { shape, first, end },
            parts,
        })?;
        Ok(())
    }

    /// The visible declaration of a name.
    fn find(&self, name: &[u8]) -> Option<Found>
        requires { length self.now.blocks < 2 ^ 32 }
        ensures { result ≡ found name.now self.now.blocks }
    {
        find_in(self.blocks.as_slice(), name)
    }

    /// The first token after the declarations so far of the innermost block.
    fn behind(&self) -> u32
        ensures { result ≡ behind_of self.now.blocks }
    {
        match self.blocks.last() {
            Some(block) => block.behind,
            None => 0,
        }
    }

    /// The innermost block declares the constant that has been named.
    fn declare_constant(&mut self, alloc: Global, value: i64) -> Result<(), AllocError>
        ensures { OnOk result (self.new ≡ holding self.old.mode self.old.stack (with_constant self.old.constant value self.old.blocks) [] self.old.nodes) }
    {
        let name = std::mem::replace(&mut self.constant, Vec::new(alloc));
        if let Some(mut block) = self.blocks.pop() {
            block.names.declare(name, Declared::Constant(value))?;
            block.constants = block.constants.saturating_add(1);
            self.blocks.push(block)?;
        }
        Ok(())
    }

    /// The innermost block declares a variable.
    fn declare_variable(&mut self, alloc: Global, name: &[u8]) -> Result<(), AllocError>
        ensures { OnOk result (self.new ≡ holding self.old.mode self.old.stack (with_variable name.now self.old.blocks) self.old.constant self.old.nodes) }
    {
        let name = Vec::from_slice(alloc, name)?;
        if let Some(mut block) = self.blocks.pop() {
            block
                .names
                .declare(name, Declared::Variable(block.variables))?;
            block.variables = block.variables.saturating_add(1);
            self.blocks.push(block)?;
        }
        Ok(())
    }

    /// The innermost block declares a procedure.
    fn declare_procedure(&mut self, alloc: Global, name: &[u8]) -> Result<(), AllocError>
        ensures { OnOk result (self.new ≡ holding self.old.mode self.old.stack (with_procedure name.now self.old.blocks) self.old.constant self.old.nodes) }
    {
        let name = Vec::from_slice(alloc, name)?;
        if let Some(mut block) = self.blocks.pop() {
            block.names.declare(name, Declared::Procedure)?;
            self.blocks.push(block)?;
        }
        Ok(())
    }

    /// The declarations so far of the innermost block end before this token.
    fn declare_to(&mut self, at: u32) -> Result<(), AllocError>
        ensures { OnOk result (self.new ≡ holding self.old.mode self.old.stack (declared_to at self.old.blocks) self.old.constant self.old.nodes) }
    {
        if let Some(mut block) = self.blocks.pop() {
            block.behind = at;
            self.blocks.push(block)?;
        }
        Ok(())
    }

    /// An inner procedure of the innermost block ends before this token.
    fn count_procedure(&mut self, at: u32) -> Result<(), AllocError>
        ensures { OnOk result (self.new ≡ holding self.old.mode self.old.stack (procedure_done at self.old.blocks) self.old.constant self.old.nodes) }
    {
        if let Some(mut block) = self.blocks.pop() {
            block.procedures = block.procedures.saturating_add(1);
            block.behind = at;
            self.blocks.push(block)?;
        }
        Ok(())
    }

    fn fold_term(&mut self, levels: Levels, end: u32) -> Result<(), AllocError>
        ensures { OnOk result (self.new ≡ holding self.old.mode self.old.stack self.old.blocks self.old.constant (term_folded levels end self.old.nodes)) }
    {
        match levels.product {
            None => Ok(()),
            Some(operator) => self.push(Shape::Binary(operator), levels.term, end, 2),
        }
    }

    fn fold_expression(&mut self, levels: Levels, end: u32) -> Result<(), AllocError>
        ensures { OnOk result (self.new ≡ holding self.old.mode self.old.stack self.old.blocks self.old.constant (expression_folded levels end self.old.nodes)) }
    {
        self.fold_term(levels, end)?;
        match levels.sum {
            Before::Nothing => Ok(()),
            Before::Sign(operator) => self.push(sign_of(operator), levels.first, end, 1),
            Before::Left(operator) => self.push(Shape::Binary(operator), levels.first, end, 2),
        }
    }

    /// The statements with a condition whose inner statement has been read are done.
    fn end_headings(&mut self, at: u32) -> Result<(), AllocError>
        ensures rest { OnOk result (headings_ended at self.old.stack self.old.nodes ≡ (self.new.stack, self.new.nodes)) }
        ensures blocks { OnOk result (self.new.blocks ≡ self.old.blocks) }
        ensures constant { OnOk result (self.new.constant ≡ self.old.constant) }
    {
        while let Some(top) = self.stack.pop() {
            let Frame::Heading(keyword, first) = top else {
                self.stack.push(top)?;
                return Ok(());
            };
            self.push(heading_shape(keyword), first, at, 2)?;
        }
        Ok(())
    }

    /// `.` after the main block's statement.
    fn end_main(&mut self, at: u32) -> Result<bool, AllocError>
        requires few { at + 2 < 2 ^ 32 }
        requires none { self.old.stack ≡ [] }
        ensures { IfOk result (λ b. MatchBool b (main_ended at self.old.blocks self.old.constant self.old.nodes ≡ Some self.new) (main_ended at self.old.blocks self.old.constant self.old.nodes ≡ None)) }
    {
        let Some(block) = self.blocks.pop() else {
            return Ok(false);
        };
        self.push(Shape::Body, block.behind, at, 1)?;
        let shape = Shape::Main(block.constants, block.variables);
        self.push(shape, 0, at + 1, block.procedures.saturating_add(1))?;
        self.mode = Mode::Finished;
        Ok(true)
    }

    /// `;` after the statement of a procedure's block, whose frame is gone.
    fn end_procedure(&mut self, at: u32) -> Result<bool, AllocError>
        requires few { at + 2 < 2 ^ 32 }
        ensures { IfOk result (λ b. MatchBool b (procedure_ended at self.old.stack self.old.blocks self.old.constant self.old.nodes ≡ Some self.new) (procedure_ended at self.old.stack self.old.blocks self.old.constant self.old.nodes ≡ None)) }
    {
        let Some(block) = self.blocks.pop() else {
            return Ok(false);
        };
        self.push(Shape::Body, block.behind, at, 1)?;
        let shape = Shape::Procedure(block.constants, block.variables);
        let first = self.behind();
        self.push(shape, first, at, block.procedures.saturating_add(1))?;
        self.count_procedure(at + 1)?;
        self.mode = Mode::AfterVariables;
        Ok(true)
    }

    /// A token after a statement that stands in no `if` or `while`.
    fn end_whole(&mut self, at: u32, word: Word) -> Result<bool, AllocError>
        requires few { at + 2 < 2 ^ 32 }
        ensures { IfOk result (λ b. MatchBool b (ended_in at word self.old.stack self.old.blocks self.old.constant self.old.nodes ≡ Some self.new) (ended_in at word self.old.stack self.old.blocks self.old.constant self.old.nodes ≡ None)) }
    {
        match (self.stack.pop(), word) {
            (None, Word::Period) => return self.end_main(at),
            (Some(Frame::Procedure), Word::Semicolon) => return self.end_procedure(at),
            (Some(Frame::Sequence(first, count)), Word::Semicolon) => {
                let count = count.saturating_add(1);
                self.stack.push(Frame::Sequence(first, count))?;
                self.mode = Mode::BeforeStatement;
            }
            (Some(Frame::Sequence(first, count)), Word::EndKey) => {
                self.push(Shape::Begin, first, at + 1, count.saturating_add(1))?;
                self.mode = Mode::AfterStatement;
            }
            _ => return Ok(false),
        }
        Ok(true)
    }

    /// A token after a statement.
    fn end_statement(&mut self, at: u32, word: Word) -> Result<bool, AllocError>
        requires few { at + 2 < 2 ^ 32 }
        ensures { IfOk result (λ b. MatchBool b (statement_ended at word self.old.stack self.old.blocks self.old.constant self.old.nodes ≡ Some self.new) (statement_ended at word self.old.stack self.old.blocks self.old.constant self.old.nodes ≡ None)) }
    {
        self.end_headings(at)?;
        self.end_whole(at, word)
    }

    /// A token after a condition.
    fn end_condition(&mut self, word: Word) -> bool
        ensures { MatchBool result (condition_ended word self.old.stack self.old.blocks self.old.constant self.old.nodes ≡ Some self.new) (condition_ended word self.old.stack self.old.blocks self.old.constant self.old.nodes ≡ None) }
    {
        match (word, self.stack.last()) {
            (Word::ThenKey, Some(Frame::Heading(Keyword::If, _)))
            | (Word::DoKey, Some(Frame::Heading(Keyword::While, _))) => {
                self.mode = Mode::BeforeStatement;
                true
            }
            _ => false,
        }
    }

    /// A token after an expression that stands in no parentheses.
    fn end_purpose(&mut self, purpose: Purpose, at: u32, word: Word) -> Result<bool, AllocError>
        requires few { at + 2 < 2 ^ 32 }
        ensures { IfOk result (λ b. MatchBool b (purpose_ended purpose at word self.old.stack self.old.blocks self.old.constant self.old.nodes ≡ Some self.new) (purpose_ended purpose at word self.old.stack self.old.blocks self.old.constant self.old.nodes ≡ None)) }
    {
        match purpose {
            Purpose::Assigned(first, meaning) => {
                self.push(Shape::Assign(meaning), first, at, 1)?;
                self.end_statement(at, word)
            }
            Purpose::Written(first) => {
                self.push(Shape::Write, first, at, 1)?;
                self.end_statement(at, word)
            }
            Purpose::Odd(first) => {
                self.push(Shape::Odd, first, at, 1)?;
                Ok(self.end_condition(word))
            }
            Purpose::Left(first) => {
                let Word::Compares(operator) = word else {
                    return Ok(false);
                };
                self.mode = Mode::BeforeExpression(Purpose::Right(first, operator));
                Ok(true)
            }
            Purpose::Right(first, operator) => {
                self.push(Shape::Binary(operator), first, at, 2)?;
                Ok(self.end_condition(word))
            }
        }
    }

    /// A token after an expression.
    fn end(&mut self, purpose: Purpose, at: u32, word: Word) -> Result<bool, AllocError>
        requires few { at + 2 < 2 ^ 32 }
        ensures { IfOk result (λ b. MatchBool b (ended purpose at word self.old.stack self.old.blocks self.old.constant self.old.nodes ≡ Some self.new) (ended purpose at word self.old.stack self.old.blocks self.old.constant self.old.nodes ≡ None)) }
    {
        let Some(Frame::Parens(levels)) = self.stack.last() else {
            return self.end_purpose(purpose, at, word);
        };
        let Word::Close = word else {
            return Ok(false);
        };
        self.mode = Mode::Has(purpose, *levels);
        self.stack.pop();
        Ok(true)
    }

    /// A token after an operand.
    fn operate(
        &mut self,
        purpose: Purpose,
        levels: Levels,
        at: u32,
        word: Word,
    ) -> Result<bool, AllocError>
        requires few { at + 2 < 2 ^ 32 }
        ensures { IfOk result (λ b. MatchBool b (operated purpose levels at word self.old.stack self.old.blocks self.old.constant self.old.nodes ≡ Some self.new) (operated purpose levels at word self.old.stack self.old.blocks self.old.constant self.old.nodes ≡ None)) }
    {
        let next = match word {
            Word::Adds(operator) => {
                self.fold_expression(levels, at)?;
                Levels {
                    first: levels.first,
                    sum: Before::Left(operator),
                    term: at + 1,
                    product: None,
                }
            }
            Word::Multiplies(operator) => {
                self.fold_term(levels, at)?;
                Levels {
                    first: levels.first,
                    sum: levels.sum,
                    term: levels.term,
                    product: Some(operator),
                }
            }
            _ => {
                self.fold_expression(levels, at)?;
                return self.end(purpose, at, word);
            }
        };
        self.mode = Mode::Wants(purpose, next);
        Ok(true)
    }

    /// A token where an operand comes.
    fn operand(
        &mut self,
        found: Option<Found>,
        purpose: Purpose,
        levels: Levels,
        at: u32,
        word: Word,
    ) -> Result<bool, AllocError>
        requires few { at + 2 < 2 ^ 32 }
        ensures { IfOk result (λ b. MatchBool b (operand found purpose levels at word self.old.stack self.old.blocks self.old.constant self.old.nodes ≡ Some self.new) (operand found purpose levels at word self.old.stack self.old.blocks self.old.constant self.old.nodes ≡ None)) }
    {
        let shape = match word {
            Word::Name => factor_of(found),
            Word::Number(value) => Shape::Number(literal(value)),
            Word::Open => {
                self.stack.push(Frame::Parens(levels))?;
                self.mode = Mode::BeforeExpression(purpose);
                return Ok(true);
            }
            _ => return Ok(false),
        };
        self.push(shape, at, at + 1, 0)?;
        self.mode = Mode::Has(purpose, levels);
        Ok(true)
    }

    /// A token where an expression comes.
    fn expression(
        &mut self,
        found: Option<Found>,
        purpose: Purpose,
        at: u32,
        word: Word,
    ) -> Result<bool, AllocError>
        requires few { at + 2 < 2 ^ 32 }
        ensures { IfOk result (λ b. MatchBool b (expression found purpose at word self.old.stack self.old.blocks self.old.constant self.old.nodes ≡ Some self.new) (expression found purpose at word self.old.stack self.old.blocks self.old.constant self.old.nodes ≡ None)) }
    {
        if let Word::Adds(operator) = word {
            let levels = Levels {
                first: at,
                sum: Before::Sign(operator),
                term: at + 1,
                product: None,
            };
            self.mode = Mode::Wants(purpose, levels);
            return Ok(true);
        }
        self.operand(found, purpose, fresh(at), at, word)
    }

    /// A token where a condition comes.
    fn condition(&mut self, found: Option<Found>, at: u32, word: Word) -> Result<bool, AllocError>
        requires few { at + 2 < 2 ^ 32 }
        ensures { IfOk result (λ b. MatchBool b (condition found at word self.old.stack self.old.blocks self.old.constant self.old.nodes ≡ Some self.new) (condition found at word self.old.stack self.old.blocks self.old.constant self.old.nodes ≡ None)) }
    {
        if let Word::OddKey = word {
            self.mode = Mode::BeforeExpression(Purpose::Odd(at));
            return Ok(true);
        }
        self.expression(found, Purpose::Left(at), at, word)
    }

    /// The first token of a statement, or the token after an empty one.
    fn statement(&mut self, found: Option<Found>, at: u32, word: Word) -> Result<bool, AllocError>
        requires few { at + 2 < 2 ^ 32 }
        ensures { IfOk result (λ b. MatchBool b (statement found at word self.old.stack self.old.blocks self.old.constant self.old.nodes ≡ Some self.new) (statement found at word self.old.stack self.old.blocks self.old.constant self.old.nodes ≡ None)) }
    {
        self.mode = match word {
            Word::Name => Mode::BeforeBecomes(at, meaning_of(found)),
            Word::CallKey => Mode::BeforeCallee(at),
            Word::Writes => Mode::BeforeExpression(Purpose::Written(at)),
            Word::BeginKey => {
                self.stack.push(Frame::Sequence(at, 0))?;
                Mode::BeforeStatement
            }
            Word::IfKey => {
                self.stack.push(Frame::Heading(Keyword::If, at))?;
                Mode::BeforeCondition
            }
            Word::WhileKey => {
                self.stack.push(Frame::Heading(Keyword::While, at))?;
                Mode::BeforeCondition
            }
            _ => {
                self.push(Shape::Empty, at, at, 0)?;
                return self.end_statement(at, word);
            }
        };
        Ok(true)
    }

    /// A token where a procedure or the block's statement comes.
    fn procedures(&mut self, found: Option<Found>, at: u32, word: Word) -> Result<bool, AllocError>
        requires few { at + 2 < 2 ^ 32 }
        ensures { IfOk result (λ b. MatchBool b (procedures found at word self.old.stack self.old.blocks self.old.constant self.old.nodes ≡ Some self.new) (procedures found at word self.old.stack self.old.blocks self.old.constant self.old.nodes ≡ None)) }
    {
        if let Word::ProcedureKey = word {
            self.stack.push(Frame::Procedure)?;
            self.mode = Mode::BeforeProcedure;
            return Ok(true);
        }
        self.statement(found, at, word)
    }

    /// A token after a block's constants.
    fn variables(&mut self, found: Option<Found>, at: u32, word: Word) -> Result<bool, AllocError>
        requires few { at + 2 < 2 ^ 32 }
        ensures { IfOk result (λ b. MatchBool b (variables found at word self.old.stack self.old.blocks self.old.constant self.old.nodes ≡ Some self.new) (variables found at word self.old.stack self.old.blocks self.old.constant self.old.nodes ≡ None)) }
    {
        if let Word::VarKey = word {
            self.mode = Mode::BeforeVariable;
            return Ok(true);
        }
        self.procedures(found, at, word)
    }

    /// The first token of a block.
    fn constants(&mut self, found: Option<Found>, at: u32, word: Word) -> Result<bool, AllocError>
        requires few { at + 2 < 2 ^ 32 }
        ensures { IfOk result (λ b. MatchBool b (constants found at word self.old.stack self.old.blocks self.old.constant self.old.nodes ≡ Some self.new) (constants found at word self.old.stack self.old.blocks self.old.constant self.old.nodes ≡ None)) }
    {
        if let Word::ConstKey = word {
            self.mode = Mode::BeforeConstant;
            return Ok(true);
        }
        self.variables(found, at, word)
    }

    /// A token in the declaration of a constant.
    fn constant(
        &mut self,
        alloc: Global,
        at: u32,
        word: Word,
        name: &[u8],
    ) -> Result<bool, AllocError>
        requires few { at + 2 < 2 ^ 32 }
        ensures { IfOk result (λ b. MatchBool b (constant_taken self.old.mode at word name.now self.old.stack self.old.blocks self.old.constant self.old.nodes ≡ Some self.new) (constant_taken self.old.mode at word name.now self.old.stack self.old.blocks self.old.constant self.old.nodes ≡ None)) }
    {
        self.mode = match (self.mode, word) {
            (Mode::BeforeConstant, Word::Name) => {
                self.constant = Vec::from_slice(alloc, name)?;
                Mode::BeforeEqual
            }
            (Mode::BeforeEqual, Word::Compares(Operator::Equal)) => Mode::BeforeNumber,
            (Mode::BeforeNumber, Word::Number(value)) => {
                self.declare_constant(alloc, literal(value))?;
                Mode::AfterConstant
            }
            (Mode::AfterConstant, Word::Comma) => Mode::BeforeConstant,
            (Mode::AfterConstant, Word::Semicolon) => {
                self.declare_to(at + 1)?;
                Mode::AfterConstants
            }
            _ => return Ok(false),
        };
        Ok(true)
    }

    /// A token in the declaration of a variable or a procedure.
    fn declaration(
        &mut self,
        alloc: Global,
        at: u32,
        word: Word,
        name: &[u8],
    ) -> Result<bool, AllocError>
        requires few { at + 2 < 2 ^ 32 }
        ensures { IfOk result (λ b. MatchBool b (declaration_taken self.old.mode at word name.now self.old.stack self.old.blocks self.old.constant self.old.nodes ≡ Some self.new) (declaration_taken self.old.mode at word name.now self.old.stack self.old.blocks self.old.constant self.old.nodes ≡ None)) }
    {
        self.mode = match (self.mode, word) {
            (Mode::BeforeVariable, Word::Name) => {
                self.declare_variable(alloc, name)?;
                Mode::AfterVariable
            }
            (Mode::AfterVariable, Word::Comma) => Mode::BeforeVariable,
            (Mode::AfterVariable, Word::Semicolon) => {
                self.declare_to(at + 1)?;
                Mode::AfterVariables
            }
            (Mode::BeforeProcedure, Word::Name) => {
                self.declare_procedure(alloc, name)?;
                Mode::AfterProcedure
            }
            (Mode::AfterProcedure, Word::Semicolon) => {
                self.blocks.push(fresh_block(alloc, at + 1))?;
                Mode::BlockStart
            }
            _ => return Ok(false),
        };
        Ok(true)
    }

    /// A token at a place where just one may come.
    fn fixed(&mut self, at: u32, word: Word) -> Result<bool, AllocError>
        requires few { at + 2 < 2 ^ 32 }
        ensures { IfOk result (λ b. MatchBool b (fixed_taken self.old.mode at word self.old.stack self.old.blocks self.old.constant self.old.nodes ≡ Some self.new) (fixed_taken self.old.mode at word self.old.stack self.old.blocks self.old.constant self.old.nodes ≡ None)) }
    {
        match (self.mode, word) {
            (Mode::BeforeBecomes(first, meaning), Word::Becomes) => {
                self.mode = Mode::BeforeExpression(Purpose::Assigned(first, meaning));
            }
            (Mode::BeforeCallee(first), Word::Name) => {
                self.push(Shape::Call, first, at + 1, 0)?;
                self.mode = Mode::AfterStatement;
            }
            _ => return Ok(false),
        }
        Ok(true)
    }

    /// Takes the next token, if it may come here. `at` is its number, counted from 0, `name` are its bytes and `found` its
    /// visible declaration, where it is a name. After a token that may not come, the contract says nothing of the
    /// reader.
    fn take(
        &mut self,
        alloc: Global,
        at: u32,
        word: Word,
        name: &[u8],
        found: Option<Found>,
    ) -> Result<bool, AllocError>
        requires few { at + 2 < 2 ^ 32 }
        requires found { found ≡ found_at word name.now self.old.blocks }
        ensures { IfOk result (λ b. MatchBool b (taken at self.old word name.now ≡ Some self.new) (taken at self.old word name.now ≡ None)) }
    {
        match self.mode {
            Mode::BlockStart => self.constants(found, at, word),
            Mode::AfterConstants => self.variables(found, at, word),
            Mode::AfterVariables => self.procedures(found, at, word),
            Mode::BeforeStatement => self.statement(found, at, word),
            Mode::AfterStatement => self.end_statement(at, word),
            Mode::BeforeCondition => self.condition(found, at, word),
            Mode::BeforeExpression(purpose) => self.expression(found, purpose, at, word),
            Mode::Wants(purpose, levels) => self.operand(found, purpose, levels, at, word),
            Mode::Has(purpose, levels) => self.operate(purpose, levels, at, word),
            Mode::BeforeBecomes(..) | Mode::BeforeCallee(_) => self.fixed(at, word),
            Mode::BeforeConstant | Mode::BeforeEqual | Mode::BeforeNumber | Mode::AfterConstant =>
                self.constant(alloc, at, word, name),
            Mode::BeforeVariable
            | Mode::AfterVariable
            | Mode::BeforeProcedure
            | Mode::AfterProcedure
            | Mode::Finished => self.declaration(alloc, at, word, name),
        }
    }

    /// The rule that a name breaks here, by its visible declaration.
    fn broken_by(&self, found: Option<Found>) -> Option<Rule>
        ensures { result ≡ broken_in self.now.mode found }
    {
        match self.mode {
            Mode::BeforeConstant | Mode::BeforeVariable | Mode::BeforeProcedure => {
                broken_declaring(found)
            }
            Mode::BlockStart
            | Mode::AfterConstants
            | Mode::AfterVariables
            | Mode::BeforeStatement => broken_assigning(found),
            Mode::BeforeCallee(_) => broken_calling(found),
            Mode::BeforeCondition | Mode::BeforeExpression(_) | Mode::Wants(..) => {
                broken_reading(found)
            }
            _ => None,
        }
    }

    /// Takes the next token, or answers the rule that it breaks: it may not come here, it is a number past 64 bits, its
    /// name may not stand here, or more than 200 brackets, statements and procedures are open. `at` is its number,
    /// counted from 0, and `name` are its bytes, where it is a name.
    pub fn take_within(
        &mut self,
        alloc: Global,
        at: u32,
        word: Word,
        name: &[u8],
    ) -> Result<Option<Rule>, AllocError>
        requires few { at + 2 < 2 ^ 32 }
        requires blocks { length self.old.blocks < 2 ^ 32 }
        ensures { IfOk result (λ broken. MatchOption broken (taken_within at self.old word name.now ≡ Ok self.new) (λ rule. taken_within at self.old word name.now ≡ Err rule)) }
    {
        let (found, broken) = match word {
            Word::Name => {
                let found = self.find(name);
                (found, self.broken_by(found))
            }
            _ => (None, None),
        };
        if !self.take(alloc, at, word, name, found)? {
            return Ok(Some(Rule::Unexpected));
        }
        if let Word::Number(None) = word {
            return Ok(Some(Rule::LiteralTooLarge));
        }
        if broken.is_some() {
            return Ok(broken);
        }
        if self.stack.len() > MOST_DEPTH {
            return Ok(Some(Rule::TooDeep));
        }
        Ok(None)
    }

    /// The nodes of the whole program, where it has been read.
    pub fn finish(self) -> Option<Vec<Node<Part>>>
        ensures { option_map (λ nodes. nodes.items) result ≡ finished self }
    {
        match self.mode {
            Mode::Finished => Some(self.nodes),
            _ => None,
        }
    }
}
