//! What a retired seat leaves.
ghost use Rattle.std.specs.Prelude.{◌≡◌, ◌<◌, length, slice_index, vec_len};
ghost use Rattle.pd_shared.specs.Book.{reads_at};

use crate::token::Reads;
use pd_board::{ActResult, Journal, Passed, Sight};

/// What a seat did while it was one: its draws, passes and acts, and how often it read which words.
#[derive(Drop)]
pub struct Sights {
    pub(crate) journal: Journal,
    pub(crate) loads: Vec<u32>,
    pub(crate) sessions: Vec<Reads>,
    pub(crate) ends: Reads,
    ghost even: { length journal.sight_loads ≡ length journal.sights },
}

impl Sights {
    /// Its sights in order.
    pub fn list(&self) -> &[Sight]
        ensures { result.now ≡ self.now.journal.sights }
    {
        self.journal.sights()
    }

    /// How many nodes it had loaded before the sight at this position.
    pub fn before(&self, i: usize) -> u32
        requires { i < length self.now.journal.sights }
        ensures { result ≡ slice_index self.now.journal.sight_loads i }
    {
        self.journal.sight_loads()[i]
    }

    /// Its passes in order.
    pub fn passes(&self) -> &[Passed]
        ensures { result.now ≡ self.now.journal.passes }
    {
        self.journal.passes()
    }

    /// The answers of its acts in order.
    pub fn replies(&self) -> &[ActResult]
        ensures { result.now ≡ self.now.journal.replies }
    {
        self.journal.replies()
    }

    /// How often it loaded the node.
    pub fn node_loads(&self, n: u32) -> u32
        requires { n < vec_len self.now.loads }
        ensures { result ≡ slice_index self.now.loads.items n }
    {
        self.loads[n as usize]
    }

    /// How often it loaded the word of the session.
    pub fn answer_loads(&self, session: u32) -> u32
        requires { session < vec_len self.now.sessions }
        ensures { result ≡ (reads_at self.now.sessions.items session).loads }
    {
        self.sessions[session as usize].loads
    }

    /// The greatest number of answers of the session that it read, or one that it took in; 0 where none did.
    pub fn last_answers(&self, session: u32) -> u32
        requires { session < vec_len self.now.sessions }
        ensures { result ≡ (reads_at self.now.sessions.items session).last }
    {
        self.sessions[session as usize].last
    }

    /// How often it loaded the word of ended contexts.
    pub fn end_loads(&self) -> u32
        ensures { result ≡ self.now.ends.loads }
    {
        self.ends.loads
    }

    /// The greatest number of ended contexts that it read, or one that it took in; 0 where none did.
    pub fn last_ends(&self) -> u32
        ensures { result ≡ self.now.ends.last }
    {
        self.ends.last
    }
}
