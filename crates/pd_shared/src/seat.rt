//! A seat: one thread's board over the shared words.
ghost use Rattle.std.specs.Prelude.{◌≡◌};

use crate::merge::{merge_counts, merge_known, merge_last, merge_reads};
use crate::replies::{
    attach_answer, dispose_answer, known_attached, known_toggled, put_count, toggle_answer,
};
use crate::shared::{ALL_SEATS, SharedBoard};
use crate::sights::Sights;
use crate::steps::{self, load_chain, mark_row};
use crate::token::{Blank, Token};
use pd_board::{ActResult, Attach, Board, Chain, Dispose, Drawn, Known, Passed, Sight, Toggle};
use pd_values::NodeId;
use std::alloc::{AllocError, Global};
use std::marker::Model;

/// One thread's board. Each of its calls is one or more steps on the shared words, and its meaning has their number.
#[derive(Drop)]
pub struct Seat<'b> {
    board: &'b SharedBoard,
    token: Token,
}

impl<'b> Model for Seat<'b> {
    ghost use Rattle.std.specs.Prelude.{◌≡◌};
    ghost use Rattle.pd_shared.specs.Book.{book_of};
    ghost use Rattle.pd_shared.specs.Tied.{IsTied};
    ghost use Rattle.pd_shared.specs.Held.{IsHeld};
    ghost use Rattle.pd_shared.specs.Sitting.{Sitting};

    ghost Value = { Sitting };

    ghost view = { λ s. record { hub = s.board.now.core; table = s.board.now.table; token = s.token } };

    ghost invariant = { λ s. (s.token.pass.id ≡ s.board.now.core.id) × IsTied s.board.now.core.layout s.token.pass.view (book_of s.token) × IsHeld s.board.now.core.layout s.token.pass.view s.token.seats s.token.counts.items };
}

impl<'b> Seat<'b> {
    ghost use Rattle.pd_shared.specs.Sitting.{IsOf};

    /// Gives up the seat, and keeps all that it has but the board: a token of that board, with which one can sit again.
    pub fn rise(self) -> Token
        ensures token { result ≡ self.entry.token }
        ensures of { IsOf self.entry.hub result }
    {
        let Seat { board: _, token } = self;
        token
    }
}

impl<'b> Seat<'b> {
    ghost use Rattle.std.specs.Prelude.{◌≤◌, ◌<◌, ◌^◌, ◌++◌, ◌∷◌, ◌↔◌, true, false, List, IfOk, IfErr, OnOk, OnErr, IsTrue, IsFalse};
    ghost use Rattle.pd_board.specs.Standing.{NothingDue};
    ghost use Rattle.pd_core.specs.Runs.{MaySplit};
    ghost use Rattle.pd_shared.specs.declared.sights.Sights.{Sights};
    ghost use Rattle.pd_shared.specs.Tied.{none_taken};
    ghost use Rattle.pd_shared.specs.Sitting.{IsOf, standing_of};
    ghost use Rattle.pd_shared.specs.Closed.{IsWhole};
    ghost use Rattle.pd_shared.specs.Left.{HasHanded, IsNewcomer, Leaves, IsOver, TakesIn, DidLeave, HasLearned};

    /// For how many further steps there is room.
    pub fn spare(&self) -> u32
        ensures { result ≡ (standing_of self.now).spare }
    {
        self.token.journal.spare()
    }

    /// Whether the context was counted as ended.
    pub fn has_ended(&self) -> bool
        ensures { result ≡ (standing_of self.now).ended }
    {
        self.token.ended
    }

    /// How often nodes were loaded.
    pub fn all_loads(&self) -> u32
        ensures { result ≡ (standing_of self.now).all_loads }
    {
        self.token.all_loads
    }

    /// How many bits were cleared.
    pub fn cleared(&self) -> u64
        ensures { result ≡ (standing_of self.now).cleared }
    {
        self.token.cleared
    }

    /// Whether no binding of the last load has still to be drawn, passed or swept.
    pub fn nothing_due(&self) -> bool
        ensures { IsTrue result ↔ NothingDue (standing_of self.now) }
    {
        self.token.due.is_empty()
    }

    /// Whether the share of the seats allows a split. A seat that took no other in says so exactly.
    pub fn can_split(&self) -> bool
        ensures can { IsTrue result → 2 ≤ self.now.token.pass.view.seat_share }
        ensures cannot { IsFalse result → none_taken self.now.token.pass.view.taken ≡ true → self.now.token.pass.view.seat_share < 2 }
    {
        2 <= self.token.seats
    }

    /// Whether all shares of the seats are back here, so that no other seat is left on the board.
    pub fn is_whole(&self) -> bool
        ensures whole { IsTrue result → IsWhole self.now.token }
        ensures not_whole { IsFalse result → self.now.token.seats < 2 ^ 32 }
    {
        ALL_SEATS <= self.token.seats
    }

    /// A further seat on the same board, for another thread. It knows what this one knows and has a share of what this
    /// may still take; it has done nothing. Condition: this one has what is handed on. Where memory runs out it answers
    /// `AllocError`, and nothing is changed.
    pub fn split(&mut self, alloc: Global) -> Result<Seat<'b>, AllocError>
        requires { MaySplit self.old.hub.layout self.old.token.pass.view }
        ensures old { OnOk result (HasHanded self.old self.new) }
        ensures new { IfOk result (λ s. IsNewcomer self.old s) }
        ensures err { OnErr result (self.new ≡ self.old) }
    {
        let known = Vec::from_slice(alloc, self.token.known.as_slice())?;
        let nodes = self.token.loads.len();
        let blank = Blank::new(alloc, known.len(), nodes, self.token.sessions.len())?;
        let pass = self.board.core.split(&mut self.token.pass);
        self.token.seats = self.token.seats.saturating_sub(1);
        Ok(Seat {
            board: self.board,
            token: blank.token(alloc, pass, 1, known),
        })
    }

    /// Ends this seat, and gives what it did. The other seat, which is of the same board, takes in its shares and what
    /// it knows.
    pub fn retire(self, into: &mut Seat<'_>) -> Sights
        requires { into.old.hub ≡ self.hub }
        ensures leaves { Leaves self.entry.token result }
        ensures over { IsOver self.entry.hub.layout result }
        ensures takes { TakesIn into.old self.entry.token into.new }
        ensures did { (left others : List Sights) → DidLeave left into.old.token.pass.view.taken → DidLeave others self.entry.token.pass.view.taken → DidLeave (left ++ result ∷ others) into.new.token.pass.view.taken }
        ensures learned { (left others : List Sights) → HasLearned into.old.token left → HasLearned self.entry.token others → HasLearned into.new.token (left ++ result ∷ others) }
    {
        let Seat { board: _, token } = self;
        into.take_in(token)
    }

    /// Takes in the token of a seat that ends: what that did.
    fn take_in(&mut self, other: Token) -> Sights
        requires { IsOf self.old.hub other }
        ensures leaves { Leaves other result }
        ensures over { IsOver self.old.hub.layout result }
        ensures takes { TakesIn self.old other self.new }
    {
        let Token {
            pass,
            seats,
            journal,
            known,
            counts,
            loads,
            sessions,
            ends,
            ..
        } = other;
        self.board.core.join(&mut self.token.pass, pass);
        self.token.seats = self.token.seats.saturating_add(seats);
        merge_known(&mut self.token.known, known.as_slice());
        merge_counts(&mut self.token.counts, counts.as_slice());
        merge_reads(&mut self.token.sessions, sessions.as_slice());
        self.token.ends = merge_last(self.token.ends, ends);
        Sights {
            journal,
            loads,
            sessions,
            ends,
        }
    }
}

impl SharedBoard {
    ghost use Rattle.pd_shared.specs.Sitting.{IsOf};

    /// Takes a seat with a token of this board.
    pub fn sit(&self, token: Token) -> Seat<'_>
        requires { IsOf self.now.core token }
        ensures { result ≡ record { hub = self.now.core; table = self.now.table; token = token } }
    {
        Seat { board: self, token }
    }
}

impl<'b> Board for Seat<'b> {
    ghost use Rattle.std.specs.Prelude.{ℕ, ◌+◌, ◌<◌, ◌≤◌, ◌^◌, ◌==◌, ◌&&◌, ◌⊎◌, ◌↔◌, not, true, false, [], ◌∷◌, ◌++◌, if◌then◌else◌, Some, IfSome, OnOk, OnErr, IsTrue};
    ghost use Rattle.std.specs.List.{All};
    ghost use Rattle.pd_board.specs.declared.answers.ActResult.{ActResult};
    ghost use Rattle.pd_board.specs.Chain.{has};
    ghost use Rattle.pd_board.specs.Answers.{stage, is_gone, known_after_load, number_of, NumbersBelow, TogglesUpTo, has_attach, has_dispose, has_disposal};
    ghost use Rattle.pd_board.specs.Standing.{bindings, matches, always_drawn, NothingDue, KnowsByItself};
    ghost use Rattle.pd_core.specs.Kinds.{clear_bit, set_disposed, set_off, clear_off, count_answer, load_answers, load_ends};
    ghost use Rattle.pd_shared.specs.Took.{Took, DrawSteps};
    ghost use Rattle.pd_shared.specs.Loading.{bit_loaded};
    ghost use Rattle.pd_shared.specs.Steps.{TookOne, AttachSteps, ChainSteps, EndSteps};
    ghost use Rattle.pd_shared.specs.Sitting.{Base, standing_of, base_of};

    ghost standing = { standing_of };

    ghost Base = { Base };

    ghost base = { base_of };

    fn reserve(&mut self, _alloc: Global, steps: u32) -> Result<(), AllocError>
        requires draws { steps ≤ (standing_of self.old).draw_share }
        requires answers { (s : ℕ) → s < (standing_of self.old).sessions → steps ≤ (standing_of self.old).answer_share s }
        ensures ok { OnOk result (steps ≤ (standing_of self.new).spare) }
        ensures err { OnErr result (standing_of self.new ≡ standing_of self.old) }
        ensures rest { standing_of self.new ≡ record (standing_of self.old) { spare = (standing_of self.new).spare } }
        ensures base { base_of self.new ≡ base_of self.old }
        ensures hub { self.new.hub ≡ self.old.hub }
        ensures steps { self.new.token.pass ≡ self.old.token.pass }
    {
        self.token.journal.reserve(steps)
    }

    fn chain(&mut self, n: NodeId) -> Chain
        requires node { n < (standing_of self.old).nodes }
        requires open { (standing_of self.old).ended ≡ false }
        requires nothing_due { NothingDue (standing_of self.old) }
        requires room { (standing_of self.old).all_loads + 1 < 2 ^ 32 }

        ensures matching { (b : ℕ) → has result b ≡ true → matches (standing_of self.old) b n ≡ true }
        ensures held { (b : ℕ) → (standing_of self.new).held b ≡ has result b }
        ensures due { (b : ℕ) → (standing_of self.new).due b ≡ has result b }
        ensures last_node { (standing_of self.new).last_node ≡ Some n }
        ensures known { (b : ℕ) → (standing_of self.new).known b ≡ known_after_load (matches (standing_of self.old) b n) (has result b) ((standing_of self.old).known b) }
        ensures alone { KnowsByItself (standing_of self.new) }
        ensures loads { (m : ℕ) → (standing_of self.new).loads m ≡ (standing_of self.old).loads m + (if m == n then 1 else 0) }
        ensures all_loads { (standing_of self.new).all_loads ≡ (standing_of self.old).all_loads + 1 }
        ensures rest { standing_of self.new ≡ record (standing_of self.old) { held = (standing_of self.new).held; due = (standing_of self.new).due; last_node = (standing_of self.new).last_node; known = (standing_of self.new).known; loads = (standing_of self.new).loads; all_loads = (standing_of self.new).all_loads } }
        ensures base { base_of self.new ≡ base_of self.old }
        ensures hub { self.new.hub ≡ self.old.hub }
        // The bindings whose bits the row words had that this call loaded.
        ensures bits { (b : ℕ) → has result b ≡ bit_loaded self.new.token.pass.view.loaded b }
        ensures steps { (rows : ℕ) × ChainSteps self.old.hub.layout n rows self.old.token.pass.view self.new.token.pass.view }
    {
        let chain = load_chain(self.board, &mut self.token, n.0);
        self.token.loads[n.0 as usize] += 1;
        self.token.last_node = Some(n);
        self.token.held = chain;
        self.token.due = chain;
        chain
    }

    fn known(&self, b: u32) -> Known {
        self.token.known[b as usize]
    }

    fn draw(&mut self, event: u32, b: u32) -> Drawn
        requires binding { b < bindings (standing_of self.old) }
        requires open { (standing_of self.old).ended ≡ false }
        requires spare { 0 < (standing_of self.old).spare }
        requires share { 0 < (standing_of self.old).draw_share }
        requires not_gone { is_gone ((standing_of self.old).known b) ≡ false }
        requires met { (standing_of self.old).known b ≡ Known.Fresh → (standing_of self.old).held b ≡ true }

        ensures sight { (standing_of self.new).sights ≡ (standing_of self.old).sights ++ record { event = event; binding = b; drawn = result } ∷ [] }
        ensures before { (standing_of self.new).sight_loads ≡ (standing_of self.old).sight_loads ++ (standing_of self.old).all_loads ∷ [] }

        // A number is above all that this board took of the binding before, and none that a toggle of this board counted.
        ensures above { IfSome (number_of result) (λ p. NumbersBelow b p (standing_of self.old).sights) }
        ensures counted { IfSome (number_of result) (λ p. TogglesUpTo b p (standing_of self.old).replies) }

        ensures number { IfSome (number_of result) (λ _. (standing_of self.new).known b ≡ Known.Attached) }
        ensures off { result ≡ Drawn.Off → ((standing_of self.new).known b ≡ Known.Disposed) ⊎ (((standing_of self.old).known b ≡ Known.Fresh) × ((standing_of self.new).known b ≡ Known.Fresh)) }
        ensures other { (c : ℕ) → (c == b) ≡ false → (standing_of self.new).known c ≡ (standing_of self.old).known c }
        ensures alone { KnowsByItself (standing_of self.new) }

        ensures due { (c : ℕ) → (standing_of self.new).due c ≡ (not (c == b) && (standing_of self.old).due c) }
        ensures spare { (standing_of self.new).spare + 1 ≡ (standing_of self.old).spare }
        ensures share { ((standing_of self.new).draw_share ≤ (standing_of self.old).draw_share) × ((standing_of self.old).draw_share ≤ (standing_of self.new).draw_share + 1) }
        ensures rest { standing_of self.new ≡ record (standing_of self.old) { sights = (standing_of self.new).sights; sight_loads = (standing_of self.new).sight_loads; known = (standing_of self.new).known; due = (standing_of self.new).due; spare = (standing_of self.new).spare; draw_share = (standing_of self.new).draw_share } }
        ensures base { base_of self.new ≡ base_of self.old }
        ensures hub { self.new.hub ≡ self.old.hub }
        ensures steps { DrawSteps self.old.hub.layout event b self.old.token.pass.view self.new.token.pass.view result ((standing_of self.new).known b) }
    {
        let known = self.token.known[b as usize];
        let (drawn, then) = steps::draw(&self.board.core, &mut self.token.pass, known, event, b);
        self.token.known[b as usize] = then;
        self.token.due.remove(b);
        let sight = Sight {
            event,
            binding: b,
            drawn,
        };
        self.token.journal.see(sight, self.token.all_loads);
        drawn
    }

    fn pass(&mut self, event: u32, b: u32)
        requires binding { b < bindings (standing_of self.old) }
        requires open { (standing_of self.old).ended ≡ false }
        requires spare { 0 < (standing_of self.old).spare }
        requires due { is_gone ((standing_of self.old).known b) ≡ false → (standing_of self.old).due b ≡ true }
        requires conditional { is_gone ((standing_of self.old).known b) ≡ false → always_drawn (standing_of self.old) b ≡ false }

        ensures passed { (standing_of self.new).passes ≡ (standing_of self.old).passes ++ record { event = event; binding = b; disposed = is_gone ((standing_of self.old).known b); before = (standing_of self.old).all_loads } ∷ [] }
        ensures due { (c : ℕ) → (standing_of self.new).due c ≡ (not (c == b && not (is_gone ((standing_of self.old).known b))) && (standing_of self.old).due c) }
        ensures spare { (standing_of self.new).spare + 1 ≡ (standing_of self.old).spare }
        ensures rest { standing_of self.new ≡ record (standing_of self.old) { passes = (standing_of self.new).passes; due = (standing_of self.new).due; spare = (standing_of self.new).spare } }
        ensures base { base_of self.new ≡ base_of self.old }
        ensures hub { self.new.hub ≡ self.old.hub }
        ensures steps { self.new.token.pass ≡ self.old.token.pass }
    {
        let disposed = self.token.known[b as usize] == Known::Disposed;
        if !disposed {
            self.token.due.remove(b);
        }
        self.token.journal.pass(Passed {
            event,
            binding: b,
            disposed,
            before: self.token.all_loads,
        });
    }

    fn sweep(&mut self, n: NodeId, b: u32)
        requires binding { b < bindings (standing_of self.old) }
        requires node { n < (standing_of self.old).nodes }
        requires last_node { (standing_of self.old).last_node ≡ Some n }
        requires gone { (standing_of self.old).known b ≡ Known.Disposed }
        requires due { (standing_of self.old).due b ≡ true }
        requires room { (standing_of self.old).cleared + 1 < 2 ^ 60 }

        ensures due { (c : ℕ) → (standing_of self.new).due c ≡ (not (c == b) && (standing_of self.old).due c) }
        ensures cleared { (standing_of self.new).cleared ≡ (standing_of self.old).cleared + 1 }
        ensures rest { standing_of self.new ≡ record (standing_of self.old) { due = (standing_of self.new).due; cleared = (standing_of self.new).cleared } }
        ensures base { base_of self.new ≡ base_of self.old }
        ensures hub { self.new.hub ≡ self.old.hub }
        ensures steps { TookOne self.old.hub.layout (clear_bit n b) self.old.token.pass.view self.new.token.pass.view }
    {
        self.board.core.clear_bit(&mut self.token.pass, n.0, b);
        self.token.due.remove(b);
        self.token.cleared += 1;
    }

    fn attach(&mut self, b: u32) -> Attach
        requires binding { b < bindings (standing_of self.old) }
        requires spare { 0 < (standing_of self.old).spare }

        ensures reply { (standing_of self.new).replies ≡ (standing_of self.old).replies ++ ActResult.Attached b result ∷ [] }
        ensures first { result ≡ Attach.Attached → (standing_of self.old).known b ≡ Known.Fresh }
        // Where it is the first attach of the binding, this board took no number of it and has no answer of an attach.
        ensures first_known { (result ≡ Attach.Already → ⊥) → (standing_of self.old).known b ≡ Known.Attached → ⊥ }
        ensures first_number { (result ≡ Attach.Already → ⊥) → NumbersBelow b 0 (standing_of self.old).sights }
        ensures first_reply { (result ≡ Attach.Already → ⊥) → has_attach b (standing_of self.old).replies ≡ false }

        ensures known { 1 ≤ stage ((standing_of self.new).known b) }
        ensures forward { stage ((standing_of self.old).known b) ≤ stage ((standing_of self.new).known b) }
        ensures gone { result ≡ Attach.Gone → (standing_of self.new).known b ≡ Known.Disposed }
        ensures other { (c : ℕ) → (c == b) ≡ false → (standing_of self.new).known c ≡ (standing_of self.old).known c }
        ensures alone { KnowsByItself (standing_of self.new) }
        ensures alone_known { (standing_of self.old).alone ≡ true → has_disposal b (standing_of self.old).replies ≡ false → (standing_of self.new).known b ≡ Known.Attached }
        ensures alone_first { (standing_of self.old).alone ≡ true → (result ≡ Attach.Attached) ↔ ((has_attach b (standing_of self.old).replies ≡ false) × (has_dispose b (standing_of self.old).replies ≡ false)) }

        ensures spare { (standing_of self.new).spare + 1 ≡ (standing_of self.old).spare }
        ensures rest { standing_of self.new ≡ record (standing_of self.old) { replies = (standing_of self.new).replies; known = (standing_of self.new).known; spare = (standing_of self.new).spare } }
        ensures base { base_of self.new ≡ base_of self.old }
        ensures hub { self.new.hub ≡ self.old.hub }
        ensures steps { AttachSteps self.old.hub.layout b self.old.token.pass.view self.new.token.pass.view }
    {
        let row = &self.board.table.rows.as_slice()[b as usize];
        mark_row(&self.board.core, &mut self.token.pass, b, row.as_slice());
        let word = self.board.core.set_attached(&mut self.token.pass, b);
        let answer = attach_answer(word);
        self.token.known[b as usize] = known_attached(self.token.known[b as usize], word);
        self.token.journal.reply(ActResult::Attached(b, answer));
        answer
    }

    fn dispose(&mut self, b: u32) -> Dispose
        requires binding { b < bindings (standing_of self.old) }
        requires spare { 0 < (standing_of self.old).spare }

        ensures reply { (standing_of self.new).replies ≡ (standing_of self.old).replies ++ ActResult.Disposed b result ∷ [] }
        ensures first { (result ≡ Dispose.Already → ⊥) → (standing_of self.old).known b ≡ Known.Disposed → ⊥ }
        ensures known { (standing_of self.new).known b ≡ Known.Disposed }
        ensures other { (c : ℕ) → (c == b) ≡ false → (standing_of self.new).known c ≡ (standing_of self.old).known c }
        ensures alone { KnowsByItself (standing_of self.new) }
        ensures spare { (standing_of self.new).spare + 1 ≡ (standing_of self.old).spare }
        ensures rest { standing_of self.new ≡ record (standing_of self.old) { replies = (standing_of self.new).replies; known = (standing_of self.new).known; spare = (standing_of self.new).spare } }
        ensures base { base_of self.new ≡ base_of self.old }
        ensures hub { self.new.hub ≡ self.old.hub }
        ensures steps { TookOne self.old.hub.layout (set_disposed b) self.old.token.pass.view self.new.token.pass.view }
    {
        let word = self.board.core.set_disposed(&mut self.token.pass, b);
        let answer = dispose_answer(word);
        put_count(&mut self.token.counts, b, answer);
        self.token.known[b as usize] = Known::Disposed;
        self.token.journal.reply(ActResult::Disposed(b, answer));
        answer
    }

    fn enable(&mut self, b: u32) -> Toggle
        requires binding { b < bindings (standing_of self.old) }
        requires spare { 0 < (standing_of self.old).spare }

        ensures reply { (standing_of self.new).replies ≡ (standing_of self.old).replies ++ ActResult.Enabled b result ∷ [] }
        ensures count { (n : ℕ) → result ≡ Toggle.At n → NumbersBelow b n (standing_of self.old).sights }
        ensures was_gone { (standing_of self.old).known b ≡ Known.Disposed → result ≡ Toggle.Gone }
        ensures gone { result ≡ Toggle.Gone → (standing_of self.new).known b ≡ Known.Disposed }
        ensures not_gone { (result ≡ Toggle.Gone → ⊥) → (standing_of self.new).known b ≡ (standing_of self.old).known b }
        ensures other { (c : ℕ) → (c == b) ≡ false → (standing_of self.new).known c ≡ (standing_of self.old).known c }
        ensures alone { KnowsByItself (standing_of self.new) }
        ensures spare { (standing_of self.new).spare + 1 ≡ (standing_of self.old).spare }
        ensures rest { standing_of self.new ≡ record (standing_of self.old) { replies = (standing_of self.new).replies; known = (standing_of self.new).known; spare = (standing_of self.new).spare } }
        ensures base { base_of self.new ≡ base_of self.old }
        ensures hub { self.new.hub ≡ self.old.hub }
        ensures steps { TookOne self.old.hub.layout (clear_off b) self.old.token.pass.view self.new.token.pass.view }
    {
        let word = self.board.core.clear_off(&mut self.token.pass, b);
        let answer = toggle_answer(false, word);
        self.token.known[b as usize] = known_toggled(self.token.known[b as usize], word);
        self.token.journal.reply(ActResult::Enabled(b, answer));
        answer
    }

    fn disable(&mut self, b: u32) -> Toggle
        requires binding { b < bindings (standing_of self.old) }
        requires spare { 0 < (standing_of self.old).spare }

        ensures reply { (standing_of self.new).replies ≡ (standing_of self.old).replies ++ ActResult.Disabled b result ∷ [] }
        ensures count { (n : ℕ) → result ≡ Toggle.At n → NumbersBelow b n (standing_of self.old).sights }
        ensures was_gone { (standing_of self.old).known b ≡ Known.Disposed → result ≡ Toggle.Gone }
        ensures gone { result ≡ Toggle.Gone → (standing_of self.new).known b ≡ Known.Disposed }
        ensures not_gone { (result ≡ Toggle.Gone → ⊥) → (standing_of self.new).known b ≡ (standing_of self.old).known b }
        ensures other { (c : ℕ) → (c == b) ≡ false → (standing_of self.new).known c ≡ (standing_of self.old).known c }
        ensures alone { KnowsByItself (standing_of self.new) }
        ensures spare { (standing_of self.new).spare + 1 ≡ (standing_of self.old).spare }
        ensures rest { standing_of self.new ≡ record (standing_of self.old) { replies = (standing_of self.new).replies; known = (standing_of self.new).known; spare = (standing_of self.new).spare } }
        ensures base { base_of self.new ≡ base_of self.old }
        ensures hub { self.new.hub ≡ self.old.hub }
        ensures steps { TookOne self.old.hub.layout (set_off b) self.old.token.pass.view self.new.token.pass.view }
    {
        let word = self.board.core.set_off(&mut self.token.pass, b);
        let answer = toggle_answer(true, word);
        self.token.known[b as usize] = known_toggled(self.token.known[b as usize], word);
        self.token.journal.reply(ActResult::Disabled(b, answer));
        answer
    }

    fn take_answer(&mut self, session: u32) -> u32
        requires session { session < (standing_of self.old).sessions }
        requires open { (standing_of self.old).ended ≡ false }
        requires spare { 0 < (standing_of self.old).spare }
        requires share { 0 < (standing_of self.old).answer_share session }

        ensures above { All (λ n. n < result) ((standing_of self.old).numbers session) }
        ensures number { (standing_of self.new).numbers session ≡ (standing_of self.old).numbers session ++ result ∷ [] }
        ensures other { (s : ℕ) → (s == session) ≡ false → (standing_of self.new).numbers s ≡ (standing_of self.old).numbers s }
        ensures share { (s : ℕ) → (standing_of self.new).answer_share s + (if s == session then 1 else 0) ≡ (standing_of self.old).answer_share s }
        ensures spare { (standing_of self.new).spare + 1 ≡ (standing_of self.old).spare }
        ensures rest { standing_of self.new ≡ record (standing_of self.old) { numbers = (standing_of self.new).numbers; answer_share = (standing_of self.new).answer_share; spare = (standing_of self.new).spare } }
        ensures base { base_of self.new ≡ base_of self.old }
        ensures hub { self.new.hub ≡ self.old.hub }
        ensures steps { Took self.old.hub.layout (count_answer session) self.old.token.pass.view result self.new.token.pass.view }
    {
        let number = self.board.core.add_answer(&mut self.token.pass, session);
        self.token.journal.step();
        number as u32
    }

    fn answers(&mut self, session: u32) -> u32
        requires session { session < (standing_of self.old).sessions }
        requires room { (standing_of self.old).answer_loads session + 1 < 2 ^ 32 }

        ensures no_less { (standing_of self.old).last_answers session ≤ result }
        ensures last { (standing_of self.new).last_answers session ≡ result }
        ensures other { (s : ℕ) → (s == session) ≡ false → (standing_of self.new).last_answers s ≡ (standing_of self.old).last_answers s }
        ensures loads { (s : ℕ) → (standing_of self.new).answer_loads s ≡ (standing_of self.old).answer_loads s + (if s == session then 1 else 0) }
        ensures rest { standing_of self.new ≡ record (standing_of self.old) { last_answers = (standing_of self.new).last_answers; answer_loads = (standing_of self.new).answer_loads } }
        ensures base { base_of self.new ≡ base_of self.old }
        ensures hub { self.new.hub ≡ self.old.hub }
        ensures steps { Took self.old.hub.layout (load_answers session) self.old.token.pass.view result self.new.token.pass.view }
    {
        let number = self.board.core.load_answers(&mut self.token.pass, session) as u32;
        let reads = &mut self.token.sessions[session as usize];
        reads.loads += 1;
        reads.last = number;
        number
    }

    fn ended(&mut self)
        requires share { (standing_of self.old).ended ≡ false → 0 < (standing_of self.old).end_share }
        ensures ended { (standing_of self.new).ended ≡ true }
        ensures share { (standing_of self.new).end_share + (if (standing_of self.old).ended then 0 else 1) ≡ (standing_of self.old).end_share }
        ensures rest { standing_of self.new ≡ record (standing_of self.old) { ended = (standing_of self.new).ended; end_share = (standing_of self.new).end_share } }
        ensures base { base_of self.new ≡ base_of self.old }
        ensures hub { self.new.hub ≡ self.old.hub }
        ensures steps { EndSteps self.old.token.ended self.old.hub.layout self.old.token.pass.view self.new.token.pass.view }
    {
        if !self.token.ended {
            self.board.core.add_end(&mut self.token.pass);
            self.token.ended = true;
        }
    }

    fn all_ended(&mut self) -> bool
        requires room { (standing_of self.old).end_loads + 1 < 2 ^ 32 }
        ensures all { IsTrue result ↔ ((standing_of self.old).contexts ≤ (standing_of self.new).last_ends) }
        ensures no_less { (standing_of self.old).last_ends ≤ (standing_of self.new).last_ends }
        ensures loads { (standing_of self.new).end_loads ≡ (standing_of self.old).end_loads + 1 }
        ensures rest { standing_of self.new ≡ record (standing_of self.old) { last_ends = (standing_of self.new).last_ends; end_loads = (standing_of self.new).end_loads } }
        ensures base { base_of self.new ≡ base_of self.old }
        ensures hub { self.new.hub ≡ self.old.hub }
        ensures steps { Took self.old.hub.layout load_ends self.old.token.pass.view (standing_of self.new).last_ends self.new.token.pass.view }
    {
        let ends = self.board.core.load_ends(&mut self.token.pass) as u32;
        self.token.ends.loads += 1;
        self.token.ends.last = ends;
        self.board.core.contexts() <= ends
    }
}
