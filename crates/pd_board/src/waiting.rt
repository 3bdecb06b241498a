//! Waiting for answers of a session.
ghost use Rattle.std.specs.Prelude.{◌≡◌, ℕ, ◌+◌, ◌<◌, ◌≤◌, ◌^◌};
ghost use Rattle.pd_board.specs.Reading.{HasRead, IsWaited, reread};

use crate::board::Board;
use std::thread;

/// How a wait for answers of a session ended.
#[derive(Clone, Copy, Debug, Drop, PartialEq, Eq)]
pub enum Waited {
    /// At least as many were taken as were asked for; `n` were.
    Reached { n: u32 },
    /// Fewer were taken, and all contexts have ended.
    AllEnded,
    /// Each turn found fewer, and not all contexts ended; the last one found `n`.
    Late { n: u32 },
}

/// Waits until `count` answers of the session were taken, or all contexts have ended, for at most so many turns, which
/// are at least one. Each turn reads the session's number of answers, and where that is too small how many contexts have
/// ended. Between turns it lets other threads run. It takes no memory.
pub fn await_answers<B: Board>(board: &mut B, session: u32, count: u32, turns: u32) -> Waited
    requires session { session < (B.standing board.old).sessions }
    requires turns { 1 ≤ turns }
    requires answers { (B.standing board.old).answer_loads session + turns < 2 ^ 32 }
    requires ends { (B.standing board.old).end_loads + turns < 2 ^ 32 }
    ensures waited { IsWaited session count turns (B.standing board.old) (B.standing board.new) result }
    ensures read { HasRead session turns (B.standing board.old) (B.standing board.new) }
    ensures rest { B.standing board.new ≡ reread (B.standing board.new) (B.standing board.old) }
    ensures base { B.base board.new ≡ B.base board.old }
{
    let mut last = 0;
    for _turn in 0..turns {
        last = board.answers(session);
        if last >= count {
            return Waited::Reached { n: last };
        }
        if board.all_ended() {
            return Waited::AllEnded;
        }
        thread::yield_now();
    }
    Waited::Late { n: last }
}
