//! A node as it is added to a tree.
use crate::kind::{Kind, Meaning};
use pd_sections::Section;
use pd_values::{Items, Text};

/// One node of a source, in the order of the nodes' numbers: a node before its parts, the parts from left to right.
#[derive(Drop)]
pub struct Addition {
    pub kind: Kind,
    /// From the node's first token to its last.
    pub section: Section,
    /// The line of the section's first byte, from 1.
    pub line: u32,
    /// The column of the section's first byte, from 1, in bytes.
    pub column: u32,
    /// A variable that the node's name means, and else `Nothing`.
    pub meaning: Meaning,
    /// How many parts the node has.
    pub children: u32,
    /// The constants that a procedure's block declares: inside the block they hide variables of these names.
    pub constants: Items<Text>,
}
