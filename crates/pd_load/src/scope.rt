//! The procedures that are visible at the nodes of a source of PL/0.
ghost use Rattle.std.specs.Prelude.{◌≡◌, ◌==◌, ◌∷◌, length, OnOk};
ghost use Rattle.pd_load.specs.Names as definition;
ghost use Rattle.pd_load.specs.Scopes.{IsScope, symbols_of};

use pd_tree::{Addition, Kind};
use pd_values::Text;
use std::alloc::{AllocError, Global};

/// A procedure that is visible, by its name.
#[derive(Drop)]
pub struct Procedure {
    pub name: Text,
    pub item: u32,
}

/// A node of which parts may still come, and how many procedures are visible after it.
#[derive(Clone, Copy, Drop)]
pub struct Unfinished {
    pub left: u32,
    pub visible: usize,
}

/// What stands around the next node of a source: the unfinished nodes from the outermost inward, and the visible
/// procedures, an inner one after those that it hides.
#[derive(Drop)]
pub struct Scope {
    pub unfinished: Vec<Unfinished>,
    pub visible: Vec<Procedure>,
}

impl Scope {
    /// The scope before the first node of a source.
    pub fn new(alloc: Global) -> Scope
        ensures { IsScope result definition.no_scope }
    {
        Scope {
            unfinished: Vec::new(alloc),
            visible: Vec::new(alloc),
        }
    }

    /// The item of the innermost visible procedure of this name.
    pub fn find(&self, name: &str) -> Option<u32>
        ensures { result ≡ definition.lookup name.now (symbols_of self.now.visible.items) }
    {
        let mut found = None;
        for procedure in &self.visible {
            if procedure.name.as_str() == name {
                found = Some(procedure.item);
            }
        }
        found
    }

    /// Whether the next node is a direct part of the main block.
    pub fn is_in_main(&self) -> bool
        ensures { result ≡ (length self.now.unfinished.items == 1) }
    {
        self.unfinished.len() == 1
    }

    /// Goes past the first token of a node, which is this item if it is one, and past the nodes that end there.
    pub fn pass(&mut self, node: &Addition, item: u32) -> Result<(), AllocError>
        ensures { OnOk result ((s : definition.Scope) → IsScope self.old s → IsScope self.new (definition.passed item s node.now)) }
    {
        self.declare(&node.kind, item)?;
        self.count_part()?;
        self.open(node.children)?;
        self.end()?;
        Ok(())
    }

    /// Makes a procedure visible from its name on. The main block has no caller.
    fn declare(&mut self, kind: &Kind, item: u32) -> Result<(), AllocError>
        ensures { OnOk result ((s : definition.Scope) → IsScope self.old s
            → IsScope self.new (record { unfinished = s.unfinished; visible = definition.declared kind.now item s.unfinished s.visible })) }
    {
        if let Kind::PlProcedure { name, .. } = kind {
            if !self.unfinished.is_empty() {
                let name = name.copy()?;
                self.visible.push(Procedure { name, item })?;
            }
        }
        Ok(())
    }

    /// One part less is to come to the innermost node.
    fn count_part(&mut self) -> Result<(), AllocError>
        ensures { OnOk result ((s : definition.Scope) → IsScope self.old s
            → IsScope self.new (record { unfinished = definition.part_came s.unfinished; visible = s.visible })) }
    {
        if let Some(last) = self.unfinished.pop() {
            let left = last.left.saturating_sub(1);
            let visible = last.visible;
            self.unfinished.push(Unfinished { left, visible })?;
        }
        Ok(())
    }

    /// A node begins, to which so many parts come.
    fn open(&mut self, left: u32) -> Result<(), AllocError>
        ensures { OnOk result ((s : definition.Scope) → IsScope self.old s
            → IsScope self.new (record { unfinished = record { left = left; visible = s.visible } ∷ s.unfinished; visible = s.visible })) }
    {
        let visible = self.visible.len();
        self.unfinished.push(Unfinished { left, visible })?;
        Ok(())
    }

    /// Nodes to which no part comes any more end.
    fn end(&mut self) -> Result<(), AllocError>
        ensures { OnOk result ((s : definition.Scope) → IsScope self.old s
            → IsScope self.new (definition.ended s.unfinished s.visible)) }
    {
        while let Some(last) = self.unfinished.pop() {
            if last.left > 0 {
                self.unfinished.push(last)?;
                return Ok(());
            }
            self.visible.truncate(last.visible);
        }
        Ok(())
    }
}
