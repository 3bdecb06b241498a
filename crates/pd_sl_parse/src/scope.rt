//! The variables that a name can mean.
ghost use Rattle.std.specs.Prelude.{◌≡◌, ◌<◌, ◌≤◌, ◌+◌, ◌*◌, ◌^◌, length, reverse, OnOk};
ghost use Rattle.std.specs.FinMap as maps;
ghost use Rattle.pd_sections.specs.Lexing.{InOrder};
ghost use Rattle.pd_sl_parse.specs.Scopes.{text_at, no_scope, latest, open_at, left, with_variable, with_parameter, with_parameters, assigned, assigned_new, assigned_again, block_entered, entered, meaning_in, innermost};

use crate::texts::text_at;
use pd_sections::{Source, Tokens};
use pd_sl_read::{Part, Shape};
use pd_tree::Meaning;
use std::alloc::{AllocError, Global};
use std::collections::BTreeMap;
use std::marker::Model;

/// A variable of a function: its slot, and from which token on up to which it is seen.
#[derive(Clone, Copy, Drop)]
pub struct Variable {
    pub slot: u32,
    pub from: u32,
    pub until: u32,
}

/// The open blocks and the latest variable of each name of a function, as its nodes are passed in the order of its text.
/// A variable of a block that has ended stays until its name is assigned again: it is seen no more.
#[derive(Drop)]
pub struct Scope<'a> {
    blocks: Vec<u32>,
    variables: BTreeMap<&'a [u8], Variable>,
    slots: u32,
}

impl<'a> Model for Scope<'a> {
    ghost use Rattle.std.specs.Prelude.{reverse, length};
    ghost use Rattle.pd_sl_parse.specs.Scopes.{Scoped, scoped_code, variables_of};

    ghost Value = { Scoped };

    ghost coded = { scoped_code };

    ghost view = { λ s. record { blocks = reverse s.blocks.items; variables = variables_of s.variables.entries; slots = s.slots } };
}

impl<'a> Scope<'a> {
    /// No variable and no block.
    pub fn new(alloc: Global) -> Scope<'a>
        ensures { result ≡ no_scope }
    {
        Scope {
            blocks: Vec::new(alloc),
            variables: BTreeMap::new(alloc),
            slots: 0,
        }
    }

    /// The latest variable of this name.
    fn find(&self, name: &'a [u8]) -> Option<Variable>
        ensures { result ≡ latest name.now self.now.variables }
    {
        self.variables.get(&name).copied()
    }

    /// The blocks that have ended before this token are left.
    fn leave(&mut self, at: u32) -> Result<(), AllocError>
        ensures { OnOk result (self.new ≡ left at self.old) }
    {
        leave_in(&mut self.blocks, at)
    }

    /// A variable is declared in the next slot.
    fn declare(&mut self, name: &'a [u8], from: u32, until: u32) -> Result<(), AllocError>
        requires room { self.old.slots + 1 < 2 ^ 32 }
        ensures { OnOk result (self.new ≡ with_variable name.now (record { slot = self.old.slots; from = from; until = until }) self.old) }
    {
        let slot = self.slots;
        self.variables.insert(name, Variable { slot, from, until })?;
        self.slots = slot + 1;
        Ok(())
    }

    /// The end of the innermost open block.
    fn innermost(&self) -> u32
        ensures { result ≡ innermost self.now.blocks }
    {
        match self.blocks.last() {
            Some(end) => *end,
            None => 0,
        }
    }

    /// A parameter, which is a variable if none before it has its name.
    fn declare_parameter(&mut self, name: &'a [u8], until: u32) -> Result<(), AllocError>
        requires room { self.old.slots + 1 < 2 ^ 32 }
        ensures { OnOk result (self.new ≡ with_parameter (latest name.now self.old.variables) name.now until self.old) }
    {
        match self.find(name) {
            Some(_) => Ok(()),
            None => self.declare(name, 0, until),
        }
    }

    /// The parameters, of which the first is this token, and every second.
    fn declare_parameters(
        &mut self,
        source: &'a Source,
        tokens: &Tokens,
        first: usize,
        until: u32,
        count: u32,
    ) -> Result<(), AllocError>
        requires tokens { InOrder 0 (length source.now.bytes) tokens.now }
        requires none { self.old.slots ≡ 0 }
        requires few { first < 2 ^ 33 }
        ensures { OnOk result (self.new ≡ with_parameters source.now.bytes tokens.now first until count self.old) }
    {
        for k in 0..count {
            let name = text_at(source, tokens, first + 2 * k as usize);
            self.declare_parameter(name, until)?;
        }
        Ok(())
    }

    /// Another assignment to a variable, which may be the first that ends.
    fn assign_again(
        &mut self,
        name: &'a [u8],
        variable: Variable,
        part: Part,
    ) -> Result<(), AllocError>
        ensures { OnOk result (self.new ≡ assigned_again name.now variable part self.old) }
    {
        if part.end < variable.from {
            self.variables.insert(
                name,
                Variable {
                    slot: variable.slot,
                    from: part.end,
                    until: variable.until,
                },
            )?;
        }
        Ok(())
    }

    /// An assignment that makes a variable of the innermost block.
    fn assign_new(&mut self, name: &'a [u8], part: Part) -> Result<(), AllocError>
        requires room { self.old.slots + 1 < 2 ^ 32 }
        ensures { OnOk result (self.new ≡ assigned_new name.now part self.old) }
    {
        let until = self.innermost();
        self.declare(name, part.end, until)
    }

    /// An assignment to this name.
    fn assign(&mut self, name: &'a [u8], part: Part) -> Result<(), AllocError>
        requires room { self.old.slots + 1 < 2 ^ 32 }
        ensures { OnOk result (self.new ≡ assigned (latest name.now self.old.variables) name.now part self.old) }
    {
        match self.find(name) {
            None => self.assign_new(name, part),
            Some(variable) => {
                if part.first < variable.until {
                    self.assign_again(name, variable, part)
                } else {
                    self.assign_new(name, part)
                }
            }
        }
    }

    /// A block begins.
    fn enter_block(&mut self, part: Part) -> Result<(), AllocError>
        ensures { OnOk result (self.new ≡ block_entered part self.old) }
    {
        self.leave(part.first)?;
        self.blocks.push(part.end)?;
        Ok(())
    }

    /// A function begins: the variables of the one before are gone.
    fn forget(&mut self)
        ensures { self.new ≡ no_scope }
    {
        self.blocks.clear();
        self.variables.clear();
        self.slots = 0;
    }

    /// A node's first token is passed.
    pub fn enter(
        &mut self,
        source: &'a Source,
        tokens: &Tokens,
        part: Part,
    ) -> Result<(), AllocError>
        requires tokens { InOrder 0 (length source.now.bytes) tokens.now }
        requires room { self.old.slots + 1 < 2 ^ 32 }
        ensures { OnOk result (self.new ≡ entered source.now.bytes tokens.now part self.old) }
    {
        match part.shape {
            Shape::Function(count) => {
                self.forget();
                self.declare_parameters(source, tokens, part.first as usize + 3, part.end, count)
            }
            Shape::Body | Shape::Block => self.enter_block(part),
            Shape::Assign => {
                let name = text_at(source, tokens, part.first as usize);
                self.leave(part.first)?;
                self.assign(name, part)
            }
            _ => Ok(()),
        }
    }

    /// What a node's name means, after its first token.
    pub fn meaning(&self, source: &'a Source, tokens: &Tokens, part: Part) -> Meaning
        requires { InOrder 0 (length source.now.bytes) tokens.now }
        ensures { result ≡ meaning_in part.shape source.now.bytes tokens.now part self.now }
    {
        let is_read = match part.shape {
            Shape::Assign => false,
            Shape::Name => true,
            _ => return Meaning::Nothing,
        };
        let name = text_at(source, tokens, part.first as usize);
        let Some(variable) = self.find(name) else {
            return Meaning::Nothing;
        };
        let slot = variable.slot;
        if is_read && (part.first < variable.from || part.first >= variable.until) {
            return Meaning::Nothing;
        }
        Meaning::Local { up: 0, slot }
    }
}

/// The blocks that have ended before this token are left; the last one is the innermost.
fn leave_in(blocks: &mut Vec<u32>, at: u32) -> Result<(), AllocError>
    ensures { OnOk result (reverse blocks.new.items ≡ open_at at (reverse blocks.old.items)) }
{
    while let Some(end) = blocks.pop() {
        if at < end {
            blocks.push(end)?;
            return Ok(());
        }
    }
    Ok(())
}
