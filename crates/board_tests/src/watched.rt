//! A board that watches what a gate was told before each of its acts and reads.
ghost use Rattle.std.specs.Prelude.{◌≡◌};

use pd_board::{Attach, Board, Chain, Dispose, Drawn, Known, PlainBoard, Toggle};
use pd_values::NodeId;
use std::alloc::{AllocError, Global};
use std::sync::atomic::{AtomicU32, Ordering};

/// A board of one thread, and the number of actions that a gate was told of.
#[derive(Drop)]
pub(crate) struct Watched<'a> {
    pub(crate) board: PlainBoard,
    pub(crate) told: &'a AtomicU32,
    /// How many acts and reads of a session's word came.
    pub(crate) came: u32,
    /// Whether one came when the gate had not been told of just so many actions.
    pub(crate) early: bool,
}

impl Watched<'_> {
    // One more act or read comes.
    fn note(&mut self)
        ensures { self.new.board ≡ self.old.board }
    {
        self.came = u32::saturating_add(self.came, 1);
        if self.told.load(Ordering::SeqCst) != self.came {
            self.early = true;
        }
    }
}

impl Board for Watched<'_> {
    ghost use Rattle.pd_board.specs.Plain.{standing_of};

    ghost standing = { λ w. standing_of w.board };

    ghost Base = { Unit {0} };

    ghost base = { λ _. tt };

    fn reserve(&mut self, alloc: Global, steps: u32) -> Result<(), AllocError> {
        self.board.reserve(alloc, steps)
    }

    fn chain(&mut self, n: NodeId) -> Chain {
        self.board.chain(n)
    }

    fn known(&self, b: u32) -> Known {
        self.board.known(b)
    }

    fn draw(&mut self, event: u32, b: u32) -> Drawn {
        self.board.draw(event, b)
    }

    fn pass(&mut self, event: u32, b: u32) {
        self.board.pass(event, b);
    }

    fn sweep(&mut self, n: NodeId, b: u32) {
        self.board.sweep(n, b);
    }

    fn attach(&mut self, b: u32) -> Attach {
        self.note();
        self.board.attach(b)
    }

    fn dispose(&mut self, b: u32) -> Dispose {
        self.note();
        self.board.dispose(b)
    }

    fn enable(&mut self, b: u32) -> Toggle {
        self.note();
        self.board.enable(b)
    }

    fn disable(&mut self, b: u32) -> Toggle {
        self.note();
        self.board.disable(b)
    }

    fn take_answer(&mut self, session: u32) -> u32 {
        self.board.take_answer(session)
    }

    fn answers(&mut self, session: u32) -> u32 {
        self.note();
        self.board.answers(session)
    }

    fn ended(&mut self) {
        self.board.ended();
    }

    fn all_ended(&mut self) -> bool {
        self.board.all_ended()
    }
}
