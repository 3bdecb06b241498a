//! Calls of a seat that take more than one step.
ghost use Rattle.std.specs.Prelude.{◌≡◌, ℕ, ◌+◌, ◌<◌, ◌≤◌, ◌^◌, ◌/◌, ◌%◌, ◌==◌, true, false, length, vec_len, MatchOption};
ghost use Rattle.pd_board.specs.Bits.{IsLowestFrom};
ghost use Rattle.pd_board.specs.Chain.{has};
ghost use Rattle.pd_board.specs.Answers.{known_after_load, is_gone};
ghost use Rattle.pd_board.specs.Standing.{in_row};
ghost use Rattle.pd_core.specs.Layout.{IsSound, bindings, row, width};
ghost use Rattle.pd_core.specs.Views.{known, past_in, half_in, HasRow, with_row};
ghost use Rattle.pd_core.specs.Words.{bit_of};
ghost use Rattle.pd_shared.specs.Book.{book_of, known_at};
ghost use Rattle.pd_shared.specs.Tied.{IsTied, told};
ghost use Rattle.pd_shared.specs.Took.{Took, DrawSteps, IsRowKnown};
ghost use Rattle.pd_shared.specs.Steps.{HasMarked, ChainSteps};
ghost use Rattle.pd_shared.specs.Loading.{bit_loaded};
ghost use Rattle.pd_core.specs.Kinds.{load_row};

use crate::shared::SharedBoard;
use crate::token::Token;
use pd_board::{Chain, Drawn, Known};
use pd_core::hub::{Core, Pass};
use pd_core::word::{has_bit, is_disposed, is_live, is_off, sum_of};
use pd_values::NodeId;

/// Draws the next number of the binding: what it gave, and what is known of the binding then.
pub(crate) fn draw(
    core: &Core,
    pass: &mut Pass,
    known_as: Known,
    event: u32,
    b: u32,
) -> (Drawn, Known)
    requires id { pass.old.id ≡ core.now.id }
    requires binding { b < bindings core.now.layout }
    requires known { known_as ≡ told (known pass.old.view b) }
    requires not_gone { is_gone known_as ≡ false }
    requires share { 0 < pass.old.view.draw_share }
    ensures id { pass.new.id ≡ pass.old.id }
    ensures steps { DrawSteps core.now.layout event b pass.old.view pass.new.view result.0 result.1 }
{
    if known_as == Known::Fresh {
        let looked = core.load_binding(pass, event, b);
        if !is_live(looked) {
            let then = if is_disposed(looked) {
                Known::Disposed
            } else {
                Known::Fresh
            };
            return (Drawn::Off, then);
        }
    }
    let word = core.add_draw(pass, event, b);
    if !is_live(word) {
        (Drawn::Off, Known::Disposed)
    } else if is_off(word) {
        (
            Drawn::Missed {
                number: sum_of(word),
            },
            Known::Attached,
        )
    } else {
        (
            Drawn::On {
                place: sum_of(word),
            },
            Known::Attached,
        )
    }
}

/// Sets the bits of the binding at each node of its row.
pub(crate) fn mark_row(core: &Core, pass: &mut Pass, b: u32, nodes: &[NodeId])
    requires id { pass.old.id ≡ core.now.id }
    requires binding { b < bindings core.now.layout }
    requires row { nodes.now ≡ row core.now.layout b }
    requires sound { IsSound core.now.layout }
    requires idle { (past_in pass.old.view.attaching b ≡ 0) × (half_in pass.old.view.attaching b ≡ false) }
    ensures id { pass.new.id ≡ pass.old.id }
    ensures marked { HasMarked core.now.layout b (length (row core.now.layout b)) pass.old.view pass.new.view }
{
    for n in nodes {
        core.set_bit(pass, n.0, b);
        core.set_summary(pass, n.0, b / 64);
    }
}

/// What is known of a binding that matches a node whose row word lacks its bit.
fn known_missing(known: Known) -> Known
    ensures { result ≡ known_after_load true false known }
{
    if known == Known::Attached {
        Known::Disposed
    } else {
        known
    }
}

/// The place of the lowest bit of the word that is set, from `low` on.
fn lowest_from(word: u64, low: u32) -> Option<u32>
    ensures { MatchOption result ((i : ℕ) → low ≤ i → bit_of word i ≡ 0) (IsLowestFrom word low) }
{
    if low >= 64 {
        return None;
    }
    let rest = word >> low;
    if rest == 0 {
        return None;
    }
    Some(low + rest.trailing_zeros())
}

/// Makes those disposed that were known as attached, match the node and have no bit in its row word `r`. It visits just
/// those that match and have none.
fn find_gone(board: &SharedBoard, known: &mut Vec<Known>, n: u32, r: u32, word: u64)
    requires node { n < board.now.core.layout.nodes }
    requires row { r < 64 }
    requires within { r < width board.now.core.layout }
    requires len { vec_len known.old ≡ bindings board.now.core.layout }
    ensures len { vec_len known.new ≡ vec_len known.old }
    ensures known { IsRowKnown board.now.table n r word known.old.items known.new.items }
{
    let missing = board.matching.word(n, r) & !word;
    let mut low = 0;
    'bits: while let Some(place) = lowest_from(missing, low) {
        let b = (64 * r + place) as usize;
        known[b] = known_missing(known[b]);
        low = place + 1;
    }
}

/// Loads the row word `r` of the node, which was loaded last and whose summary has it.
fn load_part(board: &SharedBoard, token: &mut Token, n: u32, r: u32) -> u64
    requires id { token.old.pass.id ≡ board.now.core.id }
    requires tied { IsTied board.now.core.layout token.old.pass.view (book_of token.old) }
    requires node { n < board.now.core.layout.nodes }
    requires row { r < width board.now.core.layout }
    requires loaded { HasRow token.old.pass.view.loaded n r }
    ensures id { token.new.pass.id ≡ token.old.pass.id }
    ensures tied { IsTied board.now.core.layout token.new.pass.view (book_of token.new) }
    ensures known { IsRowKnown board.now.table n r result token.old.known.items token.new.known.items }
    ensures matching { (b : ℕ) → b / 64 ≡ r → (bit_of result (b % 64) == 1) ≡ true → in_row board.now.table b n ≡ true }
    ensures loaded { token.new.pass.view.loaded ≡ with_row r result token.old.pass.view.loaded }
    ensures view { token.new.pass.view ≡ record token.old.pass.view { loaded = token.new.pass.view.loaded; found_disposed = token.new.pass.view.found_disposed; steps = token.new.pass.view.steps; last = token.new.pass.view.last } }
    ensures step { Took board.now.core.layout (load_row n r) token.old.pass.view result token.new.pass.view }
    ensures rest { token.new ≡ record token.old { pass = token.new.pass; known = token.new.known } }
{
    let word = board.core.load_row(&mut token.pass, n, r);
    find_gone(board, &mut token.known, n, r, word);
    word
}

/// Loads the node's summary word, and then each row word whose bit that has.
pub(crate) fn load_chain(board: &SharedBoard, token: &mut Token, n: u32) -> Chain
    requires id { token.old.pass.id ≡ board.now.core.id }
    requires tied { IsTied board.now.core.layout token.old.pass.view (book_of token.old) }
    requires node { n < board.now.core.layout.nodes }
    requires room { token.old.all_loads + 1 < 2 ^ 32 }
    ensures id { token.new.pass.id ≡ token.old.pass.id }
    ensures tied { IsTied board.now.core.layout token.new.pass.view (book_of token.new) }
    ensures matching { (b : ℕ) → has result b ≡ true → in_row board.now.table b n ≡ true }
    ensures bits { (b : ℕ) → has result b ≡ bit_loaded token.new.pass.view.loaded b }
    ensures known { (b : ℕ) → known_at token.new.known.items b ≡ known_after_load (in_row board.now.table b n) (has result b) (known_at token.old.known.items b) }
    ensures view { token.new.pass.view ≡ record token.old.pass.view { loads = token.new.pass.view.loads; loaded = token.new.pass.view.loaded; found_disposed = token.new.pass.view.found_disposed; steps = token.new.pass.view.steps; last = token.new.pass.view.last } }
    ensures all_loads { token.new.all_loads ≡ token.old.all_loads + 1 }
    ensures steps { (rows : ℕ) × ChainSteps board.now.core.layout n rows token.old.pass.view token.new.pass.view }
    ensures rest { token.new ≡ record token.old { pass = token.new.pass; known = token.new.known; all_loads = token.new.all_loads } }
{
    let mut chain = Chain::new();
    let summary = board.core.load_node(&mut token.pass, n);
    token.all_loads += 1;
    for r in 0..board.row_words {
        if has_bit(summary, r) {
            let word = load_part(board, token, n, r);
            chain.set_row(r, word);
        }
    }
    chain
}
