//! The end of a shared board.
ghost use Rattle.std.specs.Prelude.{◌≡◌, ℕ, ◌+◌, ◌<◌, ◌≤◌, ◌^◌, IfOk, length, slice_index};
ghost use Rattle.pd_shared.specs.Sitting.{IsOf};
ghost use Rattle.pd_shared.specs.Closed.{tally_by, AreTallies, AreNumbers, IsClosed};

use crate::shared::SharedBoard;
use crate::token::Token;
use pd_board::{BindingTally, State};
use pd_core::hub::Core;
use pd_core::word::{is_attached, is_disposed, sum_of};
use pd_values::Items;
use std::alloc::{AllocError, Global};
use std::snapshot::Snapshot;

/// How a board ended up. Only `SharedBoard::close` makes one. Clauses see besides which core it had, and which was its
/// last token, and that the tally tells what the seats did.
#[derive(Drop)]
pub struct Tally {
    bindings: Items<BindingTally>,
    answers: Items<u32>,
    core: Snapshot<Core>,
    last: Snapshot<Token>,
    ghost closed: { ∥ IsClosed core.value.layout last.value bindings answers ∥₁ },
}

impl Tally {
    ghost use Rattle.pd_shared.specs.Closed.{CountsOnce, AnswersOnce, TogglesHaveCauses, ReadsWithin};

    /// How each binding ended up, by its number. It takes no memory.
    pub fn bindings(&self) -> &[BindingTally]
        ensures bindings { result.now ≡ self.now.bindings }
        ensures once { CountsOnce self.now.last.value result.now }
        ensures causes { TogglesHaveCauses self.now.last.value result.now }
    {
        self.bindings.as_slice()
    }

    /// How many answers of each session were taken, by its number. It takes no memory.
    pub fn answers(&self) -> &[u32]
        ensures answers { result.now ≡ self.now.answers }
        ensures once { AnswersOnce self.now.last.value result.now }
        ensures read { ReadsWithin self.now.last.value result.now }
    {
        self.answers.as_slice()
    }
}

impl SharedBoard {
    /// Ends the board: how each binding ended up, and how many answers of each session were taken. Condition: the token
    /// is one of this board. Where memory runs out it answers `AllocError`, and the board is used up all the same.
    pub fn close(self, alloc: Global, last: Token) -> Result<Tally, AllocError>
        requires { IsOf self.core last }
        ensures closed { IfOk result (λ t. IsClosed self.core.layout last t.bindings t.answers) }
        ensures of { IfOk result (λ t. (t.core.value ≡ self.core) × (t.last.value ≡ last)) }
    {
        let core_was = Snapshot::of(&self.core);
        let last_was = Snapshot::of(&last);
        let SharedBoard {
            core,
            row_words,
            ..
        } = self;
        let Token {
            pass,
            counts,
            loads,
            sessions,
            ..
        } = last;
        let words = core.close(alloc, pass)?;
        let first = loads.len() + loads.len() * row_words as usize;
        let bindings = tallies_in(alloc, words.as_slice(), first, counts.as_slice())?;
        let answers = numbers_in(
            alloc,
            words.as_slice(),
            first + counts.len(),
            sessions.len(),
        )?;
        Ok(Tally {
            bindings: Items::of(bindings),
            answers: Items::of(answers),
            core: core_was,
            last: last_was,
        })
    }
}

/// How a binding ended up, by its last word and by what its disposal found.
fn tally_of(word: u64, count: u64) -> BindingTally
    ensures { result ≡ tally_by word count }
{
    if is_disposed(word) {
        BindingTally {
            state: State::Disposed,
            count,
        }
    } else {
        let state = if is_attached(word) {
            State::Live
        } else {
            State::Unattached
        };
        BindingTally {
            state,
            count: sum_of(word),
        }
    }
}

/// How each binding ended up; the words of bindings begin at `first`.
fn tallies_in(
    alloc: Global,
    words: &[u64],
    first: usize,
    counts: &[u64],
) -> Result<Vec<BindingTally>, AllocError>
    requires { first + length counts.now ≤ length words.now }
    ensures { IfOk result (λ v. AreTallies words.now first counts.now (length counts.now) v.items) }
{
    let mut tallies = Vec::new(alloc);
    for b in 0..counts.len() {
        tallies.push(tally_of(words[first + b], counts[b]))?;
    }
    Ok(tallies)
}

/// The numbers in so many words from `first` on.
fn numbers_in(
    alloc: Global,
    words: &[u64],
    first: usize,
    count: usize,
) -> Result<Vec<u32>, AllocError>
    requires within { first + count ≤ length words.now }
    requires fit { (s : ℕ) → s < count → slice_index words.now (first + s) < 2 ^ 32 }
    ensures { IfOk result (λ v. AreNumbers words.now first count v.items) }
{
    let mut numbers = Vec::new(alloc);
    for s in 0..count {
        numbers.push(words[first + s] as u32)?;
    }
    Ok(numbers)
}
