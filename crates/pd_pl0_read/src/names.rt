//! The names that a block declares.
ghost use Rattle.std.specs.Prelude.{◌≡◌, [], OnOk};
ghost use Rattle.pd_pl0_read.specs.Entries.{inserted, entry_at};

use std::alloc::{AllocError, Global};
use std::collections::BTreeMap;
use std::marker::Model;

/// What a name is declared as in a block.
#[derive(Clone, Copy, Drop)]
pub enum Declared {
    /// A constant with this value.
    Constant(i64),
    /// A variable in this slot of its block, counted from 0.
    Variable(u32),
    Procedure,
}

/// The visible declaration of a name, which stands `up` blocks outward.
#[derive(Clone, Copy, Drop)]
pub struct Found {
    pub up: u32,
    pub what: Declared,
}

/// The names of a block, each with its latest declaration.
#[derive(Drop)]
pub struct Names {
    declared: BTreeMap<Vec<u8>, Declared>,
}

impl Model for Names {
    ghost use Rattle.std.specs.Prelude.{ℕ, List};
    ghost use Rattle.pd_pl0_read.specs.declared.names.Declared.{Declared};
    ghost use Rattle.pd_pl0_read.specs.Entries.{named};

    ghost Value = { List (List ℕ × Declared) };

    ghost view = { λ n. named n.declared.entries };
}

impl Names {
    /// No name.
    pub fn new(alloc: Global) -> Names
        ensures { result ≡ [] }
    {
        Names {
            declared: BTreeMap::new(alloc),
        }
    }

    /// Declares a name. Where memory runs out, nothing is declared.
    pub fn declare(&mut self, name: Vec<u8>, what: Declared) -> Result<(), AllocError>
        ensures { OnOk result (self.new ≡ inserted name.items what self.old) }
    {
        self.declared.insert(name, what)?;
        Ok(())
    }

    /// What a name is declared as.
    pub fn find(&self, name: &[u8]) -> Option<Declared>
        ensures { result ≡ entry_at name.now self.now }
    {
        self.declared.get(name).copied()
    }
}
