//! A bit for each node and binding.
ghost use Rattle.std.specs.Prelude.{◌≡◌, ℕ, ◌+◌, ◌*◌, ◌/◌, ◌<◌, ◌≤◌, ◌^◌, ◌==◌, ◌&&◌, ◌||◌, not, false, IfOk, vec_len};
ghost use Rattle.std.specs.List.{All, list_any};
ghost use Rattle.pd_board.specs.Chain.{has};

use crate::chain::Chain;
use pd_values::NodeId;
use std::alloc::{AllocError, Global};

/// For each node `width` words of 64 bindings each.
#[derive(Drop)]
pub(crate) struct NodeBits {
    nodes: u32,
    bindings: usize,
    width: usize,
    words: Vec<u64>,
    ghost narrow: { width ≤ 64 },
    ghost wide: { bindings ≤ 64 * width },
    ghost whole: { nodes * width ≤ vec_len words },
}

impl NodeBits {
    ghost use Rattle.pd_board.specs.NodeBits.{stands, IsAlike};

    /// No bit is set. A plan has at most 4,096 bindings.
    pub(crate) fn new(alloc: Global, nodes: u32, bindings: usize) -> Result<NodeBits, AllocError>
        requires { bindings ≤ 4096 }
        ensures nodes { IfOk result (λ t. t.nodes ≡ nodes) }
        ensures bindings { IfOk result (λ t. t.bindings ≡ bindings) }
        ensures clear { IfOk result (λ t. (n b : ℕ) → stands t n b ≡ false) }
    {
        let width = bindings.div_ceil(64);
        Ok(NodeBits {
            nodes,
            bindings,
            width,
            words: vec![in alloc; 0; nodes as usize * width]?,
        })
    }

    /// Sets the bit of the binding at the node.
    fn set(&mut self, n: u32, b: u32)
        requires node { n < self.old.nodes }
        requires binding { b < self.old.bindings }
        ensures set { (m c : ℕ) → stands self.new m c ≡ ((m == n && c == b) || stands self.old m c) }
        ensures alike { IsAlike self.old self.new }
    {
        let at = n as usize * self.width + (b / 64) as usize;
        self.words[at] |= 1 << (b % 64);
    }

    /// Sets the bit of the binding at each node of the row.
    pub(crate) fn set_all(&mut self, row: &[NodeId], b: u32)
        requires row { All (λ n. n < self.old.nodes) row.now }
        requires binding { b < self.old.bindings }
        ensures set { (m c : ℕ) → stands self.new m c ≡ ((list_any (λ n. n == m) row.now && c == b) || stands self.old m c) }
        ensures alike { IsAlike self.old self.new }
    {
        for n in row {
            self.set(n.0, b);
        }
    }

    /// Clears the bit of the binding at the node.
    pub(crate) fn clear(&mut self, n: u32, b: u32)
        requires node { n < self.old.nodes }
        requires binding { b < self.old.bindings }
        ensures clear { (m c : ℕ) → stands self.new m c ≡ (not (m == n && c == b) && stands self.old m c) }
        ensures alike { IsAlike self.old self.new }
    {
        let at = n as usize * self.width + (b / 64) as usize;
        self.words[at] &= !(1 << (b % 64));
    }

    /// The bindings whose bits the node's words have.
    pub(crate) fn chain(&self, n: u32) -> Chain
        requires { n < self.now.nodes }
        ensures { (b : ℕ) → has result b ≡ stands self.now n b }
    {
        let mut chain = Chain::new();
        let first = n as usize * self.width;
        for row in 0..self.width {
            chain.set_row(row as u32, self.words[first + row]);
        }
        chain
    }
}
