//! The board of one thread.
ghost use Rattle.std.specs.Prelude.{◌≡◌, ℕ, ◌+◌, ◌<◌, ◌≤◌, ◌^◌, ◌↔◌, ◌==◌, ◌&&◌, not, true, false, if◌then◌else◌, Some, IfOk, IsTrue, length, slice_index, vec_len};
ghost use Rattle.pd_board.specs.Bound.{IsWithin, OnlyInRows, LiveStand};
ghost use Rattle.pd_board.specs.Kept.{TellsAll};
ghost use Rattle.pd_board.specs.Sessions.{IsRead, HasShares};

use crate::answers::{ActResult, Attach, Dispose, Drawn, Known, Passed, Sight, Tally, Toggle};
use crate::bits::NodeBits;
use crate::board::Board;
use crate::chain::Chain;
use crate::journal::Journal;
use crate::life::Life;
use crate::session::SessionWord;
use pd_plan::MatchTable;
use pd_values::{Items, NodeId};
use std::alloc::{AllocError, Global};

/// A board on which one thread alone steps.
#[derive(Drop)]
pub struct PlainBoard {
    table: MatchTable,
    contexts: u32,
    bits: NodeBits,
    lives: Vec<Life>,
    journal: Journal,
    draws_left: u64,
    sessions: Vec<SessionWord>,
    loads: Vec<u32>,
    all_loads: u32,
    last_node: Option<NodeId>,
    held: Chain,
    due: Chain,
    cleared: u64,
    ended: bool,
    end_loads: u32,
    last_ends: u32,
    ghost bindings: { length table.rows ≡ vec_len lives },
    ghost few: { vec_len lives ≤ 4096 },
    ghost wide: { bits.bindings ≡ vec_len lives },
    ghost long: { bits.nodes ≡ vec_len loads },
    ghost within: { IsWithin table bits.nodes },
    ghost only: { OnlyInRows bits table },
    ghost present: { LiveStand bits table lives.items },
    ghost tells: { TellsAll lives.items journal.sights journal.replies },
    ghost shares: { HasShares lives.items draws_left },
    ghost read: { IsRead sessions.items },
    ghost ends: { last_ends ≤ (if ended then 1 else 0) },
    ghost each: { (n : ℕ) → slice_index loads.items n ≤ all_loads },
}

impl PlainBoard {
    ghost use Rattle.pd_board.specs.Standing.{IsNew, NothingDue, bindings};
    ghost use Rattle.pd_board.specs.Plain.{standing_of};
    ghost use Rattle.pd_board.specs.Tally.{IsTally};

    /// A board on which nothing is attached, with the shares of a board that is alone. Condition: there are at most
    /// 4,096 rows, of nodes that are below `nodes`.
    pub fn new(
        alloc: Global,
        matches: &MatchTable,
        nodes: u32,
        sessions: u32,
        contexts: u32,
    ) -> Result<PlainBoard, AllocError>
        requires few { length matches.now.rows ≤ 4096 }
        requires within { IsWithin matches.now nodes }
        ensures { IfOk result (λ board. IsNew matches.now nodes sessions contexts (standing_of board)) }
    {
        let count = matches.rows.as_slice().len();
        let mut lives = Vec::new(alloc);
        lives.resize(count, Life::new())?;
        let mut words = Vec::new(alloc);
        words.resize(sessions as usize, SessionWord::new())?;
        let mut loads = Vec::new(alloc);
        loads.resize(nodes as usize, 0)?;
        Ok(PlainBoard {
            table: copy_of(alloc, matches)?,
            contexts,
            bits: NodeBits::new(alloc, nodes, count)?,
            lives,
            journal: Journal::new(alloc),
            // The draws of the first seat of a shared board, so that both kinds of board begin alike.
            draws_left: 1 << 60,
            sessions: words,
            loads,
            all_loads: 0,
            last_node: None,
            held: Chain::new(),
            due: Chain::new(),
            cleared: 0,
            ended: false,
            end_loads: 0,
            last_ends: 0,
        })
    }

    /// The sights, in order.
    pub fn sights(&self) -> &[Sight]
        ensures { result.now ≡ (standing_of self.now).sights }
    {
        self.journal.sights()
    }

    /// For how many further steps there is room.
    pub fn spare(&self) -> u32
        ensures { result ≡ (standing_of self.now).spare }
    {
        self.journal.spare()
    }

    /// How many numbers of bindings may still be drawn.
    pub fn draw_share(&self) -> u64
        ensures { result ≡ (standing_of self.now).draw_share }
    {
        self.draws_left
    }

    /// How many answers of the session may still be taken.
    pub fn answer_share(&self, session: u32) -> u32
        requires { session < (standing_of self.now).sessions }
        ensures { result ≡ (standing_of self.now).answer_share session }
    {
        u32::MAX - self.sessions[session as usize].taken
    }

    /// How often nodes were loaded.
    pub fn all_loads(&self) -> u32
        ensures { result ≡ (standing_of self.now).all_loads }
    {
        self.all_loads
    }

    /// How many bits were cleared.
    pub fn cleared(&self) -> u64
        ensures { result ≡ (standing_of self.now).cleared }
    {
        self.cleared
    }

    /// Whether no binding of the last load has still to be drawn, passed or swept.
    pub fn nothing_due(&self) -> bool
        ensures { IsTrue result ↔ NothingDue (standing_of self.now) }
    {
        self.due.is_empty()
    }

    /// Whether the binding has still to be drawn, passed or swept.
    pub fn is_due(&self, b: u32) -> bool
        requires { b < bindings (standing_of self.now) }
        ensures { result ≡ (standing_of self.now).due b }
    {
        self.due.contains(b)
    }

    /// Whether the context was counted as ended.
    pub fn has_ended(&self) -> bool
        ensures { result ≡ (standing_of self.now).ended }
    {
        self.ended
    }

    /// The state and the count of each binding, and the number of answers of each session.
    pub fn tally(&self, alloc: Global) -> Result<Tally, AllocError>
        ensures { IfOk result (λ t. IsTally (standing_of self.now) t.bindings t.answers) }
    {
        let mut bindings = Vec::new(alloc);
        for life in &self.lives {
            bindings.push(life.tally())?;
        }
        let mut answers = Vec::new(alloc);
        for word in &self.sessions {
            answers.push(word.taken)?;
        }
        Ok(Tally {
            bindings: Items::of(bindings),
            answers: Items::of(answers),
        })
    }
}

/// A second table with the same rows.
fn copy_of(alloc: Global, table: &MatchTable) -> Result<MatchTable, AllocError>
    ensures { IfOk result (λ t. t ≡ table.now) }
{
    let mut rows = Vec::new(alloc);
    for row in table.rows.as_slice() {
        rows.push(Items::of(Vec::from_slice(alloc, row.as_slice())?))?;
    }
    let always = Items::of(Vec::from_slice(alloc, table.always.as_slice())?);
    Ok(MatchTable {
        rows: Items::of(rows),
        always,
    })
}

impl Board for PlainBoard {
    ghost use Rattle.pd_board.specs.Plain.{standing_of};
    ghost use Rattle.pd_board.specs.Chain.{has};
    ghost use Rattle.pd_board.specs.Answers.{known_after_load};
    ghost use Rattle.pd_board.specs.Standing.{bindings, matches, KnowsByItself};
    ghost use Rattle.pd_board.specs.Kept.{upto};
    ghost use Rattle.pd_board.specs.NodeBits.{stands};

    ghost standing = { standing_of };

    ghost Base = { Unit {0} };

    ghost base = { λ _. tt };

    fn reserve(&mut self, _alloc: Global, steps: u32) -> Result<(), AllocError> {
        self.journal.reserve(steps)
    }

    fn chain(&mut self, n: NodeId) -> Chain
        requires node { n < (standing_of self.old).nodes }
        requires room { (standing_of self.old).all_loads + 1 < 2 ^ 32 }
        // On a board of one thread it gives the bits of the node, all of them, and changes none.
        ensures bits { (b : ℕ) → has result b ≡ stands self.old.bits n b }
        ensures kept { self.new.bits ≡ self.old.bits }
        ensures matching { (b : ℕ) → has result b ≡ true → matches (standing_of self.old) b n ≡ true }
        ensures held { (b : ℕ) → (standing_of self.new).held b ≡ has result b }
        ensures due { (b : ℕ) → (standing_of self.new).due b ≡ has result b }
        ensures last_node { (standing_of self.new).last_node ≡ Some n }
        ensures known { (b : ℕ) → (standing_of self.new).known b ≡ known_after_load (matches (standing_of self.old) b n) (has result b) ((standing_of self.old).known b) }
        ensures alone { KnowsByItself (standing_of self.new) }
        ensures loads { (m : ℕ) → (standing_of self.new).loads m ≡ (standing_of self.old).loads m + (if m == n then 1 else 0) }
        ensures all_loads { (standing_of self.new).all_loads ≡ (standing_of self.old).all_loads + 1 }
        ensures rest { standing_of self.new ≡ record (standing_of self.old) { held = (standing_of self.new).held; due = (standing_of self.new).due; last_node = (standing_of self.new).last_node; known = (standing_of self.new).known; loads = (standing_of self.new).loads; all_loads = (standing_of self.new).all_loads } }
    {
        let chain = self.bits.chain(n.0);
        self.loads[n.0 as usize] += 1;
        self.all_loads += 1;
        self.last_node = Some(n);
        self.held = chain;
        self.due = chain;
        chain
    }

    fn known(&self, b: u32) -> Known {
        self.lives[b as usize].known()
    }

    fn draw(&mut self, event: u32, b: u32) -> Drawn {
        let drawn = self.lives[b as usize].draw();
        self.draws_left -= 1;
        self.due.remove(b);
        let sight = Sight {
            event,
            binding: b,
            drawn,
        };
        self.journal.see(sight, self.all_loads);
        drawn
    }

    fn pass(&mut self, event: u32, b: u32) {
        let disposed = self.lives[b as usize].disposed;
        if !disposed {
            self.due.remove(b);
        }
        self.journal.pass(Passed {
            event,
            binding: b,
            disposed,
            before: self.all_loads,
        });
    }

    fn sweep(&mut self, n: NodeId, b: u32)
        requires binding { b < bindings (standing_of self.old) }
        requires node { n < (standing_of self.old).nodes }
        requires gone { (standing_of self.old).known b ≡ Known.Disposed }
        requires room { (standing_of self.old).cleared + 1 < 2 ^ 60 }
        // It is this bit that is cleared, and no other.
        ensures bits { (m c : ℕ) → stands self.new.bits m c ≡ (not (m == n && c == b) && stands self.old.bits m c) }
        ensures due { (c : ℕ) → (standing_of self.new).due c ≡ (not (c == b) && (standing_of self.old).due c) }
        ensures cleared { (standing_of self.new).cleared ≡ (standing_of self.old).cleared + 1 }
        ensures rest { standing_of self.new ≡ record (standing_of self.old) { due = (standing_of self.new).due; cleared = (standing_of self.new).cleared } }
    {
        self.bits.clear(n.0, b);
        self.due.remove(b);
        self.cleared += 1;
    }

    fn attach(&mut self, b: u32) -> Attach {
        let row = &self.table.rows.as_slice()[b as usize];
        self.bits.set_all(row.as_slice(), b);
        let answer = self.lives[b as usize].attach();
        self.journal.reply(ActResult::Attached(b, answer));
        answer
    }

    fn dispose(&mut self, b: u32) -> Dispose {
        let answer = self.lives[b as usize].dispose();
        self.journal.reply(ActResult::Disposed(b, answer));
        answer
    }

    fn enable(&mut self, b: u32) -> Toggle {
        let answer = self.lives[b as usize].switch(false);
        self.journal.reply(ActResult::Enabled(b, answer));
        answer
    }

    fn disable(&mut self, b: u32) -> Toggle {
        let answer = self.lives[b as usize].switch(true);
        self.journal.reply(ActResult::Disabled(b, answer));
        answer
    }

    fn take_answer(&mut self, session: u32) -> u32 {
        self.journal.step();
        let word = &mut self.sessions[session as usize];
        let number = word.taken;
        word.taken += 1;
        number
    }

    fn answers(&mut self, session: u32) -> u32
        requires session { session < (standing_of self.old).sessions }
        requires room { (standing_of self.old).answer_loads session + 1 < 2 ^ 32 }
        // On a board of one thread these are the ones that this board took, and no older count of them.
        ensures all { (standing_of self.old).numbers session ≡ upto result }
        ensures no_less { (standing_of self.old).last_answers session ≤ result }
        ensures last { (standing_of self.new).last_answers session ≡ result }
        ensures other { (s : ℕ) → (s == session) ≡ false → (standing_of self.new).last_answers s ≡ (standing_of self.old).last_answers s }
        ensures loads { (s : ℕ) → (standing_of self.new).answer_loads s ≡ (standing_of self.old).answer_loads s + (if s == session then 1 else 0) }
        ensures rest { standing_of self.new ≡ record (standing_of self.old) { last_answers = (standing_of self.new).last_answers; answer_loads = (standing_of self.new).answer_loads } }
    {
        let word = &mut self.sessions[session as usize];
        word.loads += 1;
        word.last = word.taken;
        word.last
    }

    fn ended(&mut self) {
        self.ended = true;
    }

    fn all_ended(&mut self) -> bool
        requires room { (standing_of self.old).end_loads + 1 < 2 ^ 32 }
        // On a board of one thread the context that has ended, if one has, is this board's.
        ensures ends { (standing_of self.new).last_ends ≡ (if (standing_of self.old).ended then 1 else 0) }
        ensures all { IsTrue result ↔ ((standing_of self.old).contexts ≤ (standing_of self.new).last_ends) }
        ensures no_less { (standing_of self.old).last_ends ≤ (standing_of self.new).last_ends }
        ensures loads { (standing_of self.new).end_loads ≡ (standing_of self.old).end_loads + 1 }
        ensures rest { standing_of self.new ≡ record (standing_of self.old) { last_ends = (standing_of self.new).last_ends; end_loads = (standing_of self.new).end_loads } }
    {
        self.end_loads += 1;
        self.last_ends = u32::from(self.ended);
        self.contexts <= self.last_ends
    }
}
