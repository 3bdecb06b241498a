//! Which bindings match a node.
ghost use Rattle.std.specs.Prelude.{◌≡◌, ℕ, ◌+◌, ◌*◌, ◌/◌, ◌%◌, ◌<◌, ◌≤◌, ◌==◌, ◌&&◌, ◌||◌, [], false, IfOk, length, slice_index, slice_index_or, vec_len};
ghost use Rattle.std.specs.List.{All, list_any};
ghost use Rattle.pd_core.specs.Words.{bit_of};

use pd_values::{Items, NodeId};
use std::alloc::{AllocError, Global};

/// For each node `width` words of 64 bindings each, whose bits say which of them have the node in their rows.
#[derive(Drop)]
pub(crate) struct Matching {
    nodes: u32,
    bindings: usize,
    width: usize,
    words: Vec<u64>,
    ghost wide: { bindings ≤ 64 * width },
    ghost whole: { nodes * width ≤ vec_len words },
}

impl Matching {
    ghost use Rattle.pd_shared.specs.Matching.{stands, IsAlike};

    /// The words of these rows, of nodes below `nodes`.
    pub(crate) fn of(
        alloc: Global,
        rows: &[Items<NodeId>],
        nodes: u32,
    ) -> Result<Matching, AllocError>
        requires few { length rows.now ≤ 4096 }
        requires within { (b k : ℕ) → k < length (slice_index_or rows.now b []) → slice_index (slice_index_or rows.now b []) k < nodes }
        ensures nodes { IfOk result (λ m. m.nodes ≡ nodes) }
        ensures width { IfOk result (λ m. m.width ≡ (length rows.now + 63) / 64) }
        ensures stand { IfOk result (λ m. (n b : ℕ) → stands m n b ≡ list_any (λ x. x == n) (slice_index_or rows.now b [])) }
    {
        let mut matching = Matching::new(alloc, nodes, rows.len())?;
        for b in 0..rows.len() {
            matching.set_all(rows[b].as_slice(), b as u32);
        }
        Ok(matching)
    }

    /// No bit is set.
    fn new(alloc: Global, nodes: u32, bindings: usize) -> Result<Matching, AllocError>
        requires { bindings ≤ 4096 }
        ensures nodes { IfOk result (λ m. m.nodes ≡ nodes) }
        ensures bindings { IfOk result (λ m. m.bindings ≡ bindings) }
        ensures width { IfOk result (λ m. m.width ≡ (bindings + 63) / 64) }
        ensures clear { IfOk result (λ m. (n b : ℕ) → stands m n b ≡ false) }
    {
        let width = (bindings + 63) / 64;
        Ok(Matching {
            nodes,
            bindings,
            width,
            words: vec![in alloc; 0; nodes as usize * width]?,
        })
    }

    /// Sets the bit of the binding at the node.
    fn set(&mut self, n: u32, b: u32)
        requires node { n < self.old.nodes }
        requires binding { b < self.old.bindings }
        ensures set { (m c : ℕ) → stands self.new m c ≡ ((m == n && c == b) || stands self.old m c) }
        ensures alike { IsAlike self.old self.new }
    {
        let at = n as usize * self.width + (b / 64) as usize;
        self.words[at] |= 1 << (b % 64);
    }

    /// Sets the bit of the binding at each node of the row.
    fn set_all(&mut self, row: &[NodeId], b: u32)
        requires row { All (λ n. n < self.old.nodes) row.now }
        requires binding { b < self.old.bindings }
        ensures set { (m c : ℕ) → stands self.new m c ≡ ((list_any (λ n. n == m) row.now && c == b) || stands self.old m c) }
        ensures alike { IsAlike self.old self.new }
    {
        for n in row {
            self.set(n.0, b);
        }
    }

    /// The word of the node for the 64 bindings from `64 * r` on.
    pub(crate) fn word(&self, n: u32, r: u32) -> u64
        requires node { n < self.now.nodes }
        requires row { r < self.now.width }
        ensures { (b : ℕ) → b / 64 ≡ r → (bit_of result (b % 64) == 1) ≡ stands self.now n b }
    {
        self.words[n as usize * self.width + r as usize]
    }
}
