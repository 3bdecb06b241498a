//! What a seat has without its board.
ghost use Rattle.std.specs.Prelude.{◌≡◌, ℕ, false, replicate, None, IfOk};
ghost use Rattle.pd_board.specs.Chain.{has};
ghost use Rattle.pd_shared.specs.First.{IsFirst};
ghost use Rattle.pd_shared.specs.Book.{unread};

use pd_board::{Chain, Journal, Known};
use pd_core::hub::Pass;
use pd_values::NodeId;
use std::alloc::{AllocError, Global};

/// How often a word was read, and what was read of it last.
#[derive(Clone, Copy, Drop)]
pub(crate) struct Reads {
    pub(crate) loads: u32,
    pub(crate) last: u32,
}

impl Reads {
    /// Nothing was read.
    pub(crate) fn new() -> Reads
        ensures { result ≡ unread }
    {
        Reads { loads: 0, last: 0 }
    }
}

/// All that a seat has, but for the board on which it sits.
#[derive(Drop)]
pub struct Token {
    pub(crate) pass: Pass,
    /// How many shares of the seats this has at least.
    pub(crate) seats: u64,
    pub(crate) journal: Journal,
    pub(crate) known: Vec<Known>,
    /// For each binding what its disposal found, where this seat or one that it took in disposed of it.
    pub(crate) counts: Vec<u64>,
    pub(crate) loads: Vec<u32>,
    pub(crate) all_loads: u32,
    pub(crate) last_node: Option<NodeId>,
    pub(crate) held: Chain,
    pub(crate) due: Chain,
    pub(crate) cleared: u64,
    pub(crate) ended: bool,
    pub(crate) sessions: Vec<Reads>,
    pub(crate) ends: Reads,
}

/// The lists of a token that has done nothing.
#[derive(Drop)]
pub(crate) struct Blank {
    counts: Vec<u64>,
    loads: Vec<u32>,
    sessions: Vec<Reads>,
}

impl Blank {
    /// For so many bindings, nodes and sessions.
    pub(crate) fn new(
        alloc: Global,
        bindings: usize,
        nodes: usize,
        sessions: usize,
    ) -> Result<Blank, AllocError>
        ensures counts { IfOk result (λ b. b.counts.items ≡ replicate bindings 0) }
        ensures loads { IfOk result (λ b. b.loads.items ≡ replicate nodes 0) }
        ensures sessions { IfOk result (λ b. b.sessions.items ≡ replicate sessions unread) }
    {
        let mut counts = Vec::new(alloc);
        counts.resize(bindings, 0)?;
        let mut loads = Vec::new(alloc);
        loads.resize(nodes, 0)?;
        let mut reads = Vec::new(alloc);
        reads.resize(sessions, Reads::new())?;
        Ok(Blank {
            counts,
            loads,
            sessions: reads,
        })
    }

    /// The token that has these lists. It takes no memory.
    pub(crate) fn token(self, alloc: Global, pass: Pass, seats: u64, known: Vec<Known>) -> Token
        ensures pass { result.pass ≡ pass }
        ensures seats { result.seats ≡ seats }
        ensures known { result.known ≡ known }
        ensures first { IsFirst self.counts.items self.loads.items self.sessions.items result }
    {
        let Blank {
            counts,
            loads,
            sessions,
        } = self;
        Token {
            pass,
            seats,
            journal: Journal::new(alloc),
            known,
            counts,
            loads,
            all_loads: 0,
            last_node: None,
            held: Chain::new(),
            due: Chain::new(),
            cleared: 0,
            ended: false,
            sessions,
            ends: Reads::new(),
        }
    }
}
