//! The nodes of one source.
ghost use Rattle.std.specs.Prelude.{◌≡◌, [], ◌∷◌, ◌++◌, OnOk, OnErr};
ghost use Rattle.pd_tree.specs.Linked.{IsWhole};

use crate::addition::Addition;
use crate::kind::{Kind, Meaning};
use pd_sections::Section;
use pd_values::{Items, Text};
use std::alloc::{AllocError, Global};
use std::marker::Model;

/// The nodes of one source in the order of their numbers. Contracts see the list of additions.
#[derive(Drop)]
pub struct Tree {
    additions: Vec<Addition>,
}

impl Model for Tree {
    ghost use Rattle.std.specs.Prelude.{List};
    ghost use Rattle.pd_tree.specs.declared.addition.Addition.{Addition};
    ghost use Rattle.pd_tree.specs.Linked.{IsWhole};

    ghost Value = { List Addition };

    ghost view = { λ t. t.additions.items };

    ghost invariant = { λ t. IsWhole t.additions.items };
}

impl Tree {
    /// The nodes as they were added.
    pub fn additions(&self) -> &[Addition]
        ensures value { result.now ≡ self.now }
        ensures whole { IsWhole self.now }
    {
        self.additions.as_slice()
    }

    /// The nodes as they were added, to keep. It takes no memory.
    pub fn into_additions(self) -> Vec<Addition>
        ensures value { result.items ≡ self }
        ensures whole { IsWhole self }
    {
        self.additions
    }
}

/// A tree that is being built. Contracts see the list of additions so far.
#[derive(Drop)]
pub struct Builder {
    additions: Vec<Addition>,
}

impl Model for Builder {
    ghost use Rattle.std.specs.Prelude.{List};
    ghost use Rattle.pd_tree.specs.declared.addition.Addition.{Addition};

    ghost Value = { List Addition };

    ghost view = { λ b. b.additions.items };
}

impl Builder {
    /// A tree without nodes. It takes no memory.
    pub fn new(alloc: Global) -> Builder
        ensures { result ≡ [] }
    {
        Builder {
            additions: Vec::new(alloc),
        }
    }

    /// Adds the next node, with the number of its parts, which come after it. `meaning` is `Local` for a variable and
    /// else `Nothing`; `line` and `column` are those of the section's first byte. Where memory runs out, nothing is
    /// added.
    pub fn add(
        &mut self,
        kind: Kind,
        section: Section,
        line: u32,
        column: u32,
        meaning: Meaning,
        children: u32,
    ) -> Result<(), AllocError>
        ensures added { OnOk result (self.new ≡ self.old ++ record {
          kind = kind;
          section = section;
          line = line;
          column = column;
          meaning = meaning;
          children = children;
          constants = [];
        } ∷ []) }
        ensures same { OnErr result (self.new ≡ self.old) }
    {
        let constants = Items::of(Vec::new(*self.additions.allocator()));
        self.push(Addition {
            kind,
            section,
            line,
            column,
            meaning,
            children,
            constants,
        })
    }

    /// Adds the next node as [`Builder::add`] does, with all that it has; for a procedure whose block declares
    /// constants. Where memory runs out, nothing is added.
    pub fn push(&mut self, addition: Addition) -> Result<(), AllocError>
        ensures added { OnOk result (self.new ≡ self.old ++ addition ∷ []) }
        ensures same { OnErr result (self.new ≡ self.old) }
    {
        self.additions.push(addition)?;
        Ok(())
    }

    /// The tree of these nodes, each of which has its parts. It takes no memory.
    pub fn finish(self) -> Tree
        requires { IsWhole self }
        ensures { result ≡ self }
    {
        Tree {
            additions: self.additions,
        }
    }
}
