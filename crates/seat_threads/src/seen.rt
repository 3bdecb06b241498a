//! What seats were told.
use pd_board::{ActResult, Sight};
use std::alloc::{AllocError, Global};

/// An answer number of a session.
#[derive(Clone, Copy, Drop)]
pub struct Answer {
    pub session: u32,
    pub number: u64,
}

/// What the calls of a seat answered, in order: its draws, its acts, and the answer numbers that it took.
#[derive(Drop)]
pub struct Seen {
    pub sights: Vec<Sight>,
    pub replies: Vec<ActResult>,
    pub answers: Vec<Answer>,
}

impl Seen {
    /// Nothing was told. It takes no memory.
    pub fn new(alloc: Global) -> Seen {
        Seen {
            sights: Vec::new(alloc),
            replies: Vec::new(alloc),
            answers: Vec::new(alloc),
        }
    }

    /// Puts what another seat was told behind.
    pub fn add(&mut self, other: &Seen) -> Result<(), AllocError> {
        self.sights.extend_from_slice(other.sights.as_slice())?;
        self.replies.extend_from_slice(other.replies.as_slice())?;
        self.answers.extend_from_slice(other.answers.as_slice())
    }
}
