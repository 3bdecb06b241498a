//! The bindings that stand at a node.
ghost use Rattle.std.specs.Prelude.{◌≡◌, ℕ, ◌<◌, ◌≤◌, ◌/◌, ◌%◌, ◌^◌, ◌==◌, ◌&&◌, ◌↔◌, not, if◌then◌else◌, false, IsTrue, MatchOption, slice_index};
ghost use Rattle.std.specs.Int.{bit_at};
ghost use Rattle.pd_board.specs.Bits.{IsLeastFrom, IsLowestFrom};

/// The bindings whose bits a node's words had: 64 words of 64 bindings each, and a summary with a bit for each word
/// that isn't 0. It takes no memory besides.
#[derive(Clone, Copy, Drop)]
pub struct Chain {
    summary: u64,
    words: [u64; 64],
    ghost summed: { (row : ℕ) → row < 64 → (bit_at summary row == 0) ≡ (slice_index words row == 0) },
}

impl Chain {
    ghost use Rattle.pd_board.specs.Chain.{has};

    /// The chain of no binding.
    pub fn new() -> Chain
        ensures { (b : ℕ) → has result b ≡ false }
    {
        Chain {
            summary: 0,
            words: [0; 64],
        }
    }

    /// Puts the word of the 64 bindings from `64 * row` on.
    pub fn set_row(&mut self, row: u32, word: u64)
        requires { row < 64 }
        ensures { (b : ℕ) → has self.new b ≡ (if b / 64 == row then bit_at word (b % 64) == 1 else has self.old b) }
    {
        let summary = self.summary;
        self.words[row as usize] = word;
        self.summary = if word == 0 {
            summary & !(1 << row)
        } else {
            summary | (1 << row)
        };
    }

    /// Takes a binding out, if it is there. A chain has room for 4,096 bindings.
    pub fn remove(&mut self, b: u32)
        requires { b < 4096 }
        ensures { (c : ℕ) → has self.new c ≡ (not (c == b) && has self.old c) }
    {
        let word = self.words[(b / 64) as usize];
        self.set_row(b / 64, word & !(1 << (b % 64)));
    }

    /// Whether the chain has the binding.
    pub fn contains(&self, b: u32) -> bool
        requires { b < 4096 }
        ensures { result ≡ has self.now b }
    {
        (self.words[(b / 64) as usize] >> (b % 64)) & 1 == 1
    }

    /// Whether the chain has no binding.
    pub fn is_empty(&self) -> bool
        ensures { IsTrue result ↔ ((b : ℕ) → has self.now b ≡ false) }
    {
        self.next_from(0).is_none()
    }

    /// The least binding of the chain that is at least `b`, found by operations on words. `None` comes exactly where
    /// there is none.
    pub fn next_from(&self, b: u32) -> Option<u32>
        ensures { MatchOption result ((c : ℕ) → b ≤ c → has self.now c ≡ false) (IsLeastFrom (has self.now) b) }
    {
        let row = b / 64;
        if row >= 64 {
            return None;
        }
        if let Some(place) = lowest_from(self.words[row as usize], b % 64) {
            return Some(row * 64 + place);
        }
        let next = lowest_from(self.summary, row + 1)?;
        Some(next * 64 + self.words[next as usize].trailing_zeros())
    }
}

/// The place of the lowest bit of the word that is set, from `low` on.
fn lowest_from(word: u64, low: u32) -> Option<u32>
    ensures { MatchOption result ((i : ℕ) → low ≤ i → bit_at word i ≡ 0) (IsLowestFrom word low) }
{
    if low >= 64 {
        return None;
    }
    let rest = word >> low;
    if rest == 0 {
        return None;
    }
    Some(low + rest.trailing_zeros())
}
