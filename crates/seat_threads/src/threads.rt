//! Four players in four threads.
ghost use Rattle.std.specs.Prelude.{◌≡◌, ◌<◌};
ghost use Rattle.pd_shared.specs.Sitting.{IsOf};
ghost use Rattle.seat_threads.specs.Fit.{IsBoard};

use crate::play::{Played, play};
use crate::player::Rested;
use pd_shared::SharedBoard;
use std::alloc::Global;
use std::sync::atomic::AtomicU32;
use std::thread::{Threads, join};

/// Two players.
#[derive(Drop)]
pub struct Pair {
    pub one: Rested,
    pub other: Rested,
}

/// Two players that have played.
#[derive(Drop)]
pub struct PlayedPair {
    pub one: Played,
    pub other: Played,
}

/// Two players play beside one another, as those of this number and of the next.
fn play_two<R: Threads + Sync>(
    rt: &R,
    board: &SharedBoard,
    ready: &AtomicU32,
    alloc: Global,
    round: u32,
    number: u32,
    players: Pair,
) -> PlayedPair
    requires number { number < 4 }
    requires board { IsBoard board.now.core.layout board.now.table }
    requires of { IsOf board.now.core players.one.token × IsOf board.now.core players.other.token }
    ensures { IsOf board.now.core result.one.token × IsOf board.now.core result.other.token }
{
    let Pair { one, other } = players;
    let (one, other) = join(
        rt,
        move || -> Played
            requires { IsBoard board.now.core.layout board.now.table × IsOf board.now.core one.token }
            ensures { IsOf board.entry.now.core result.token }
        { play(board, ready, alloc, round, number, one) },
        move || -> Played
            requires { (number < 4) × IsBoard board.now.core.layout board.now.table × IsOf board.now.core other.token }
            ensures { IsOf board.entry.now.core result.token }
        { play(board, ready, alloc, round, number + 1, other) },
    );
    PlayedPair { one, other }
}

/// Four players play beside one another.
pub fn play_four<R: Threads + Sync>(
    rt: &R,
    board: &SharedBoard,
    alloc: Global,
    round: u32,
    first: Pair,
    last: Pair,
) -> (PlayedPair, PlayedPair)
    requires board { IsBoard board.now.core.layout board.now.table }
    requires first { IsOf board.now.core first.one.token × IsOf board.now.core first.other.token }
    requires last { IsOf board.now.core last.one.token × IsOf board.now.core last.other.token }
    ensures first { IsOf board.now.core result.0.one.token × IsOf board.now.core result.0.other.token }
    ensures last { IsOf board.now.core result.1.one.token × IsOf board.now.core result.1.other.token }
{
    let ready = &AtomicU32::new(0);
    join(
        rt,
        move || -> PlayedPair
            requires { IsBoard board.now.core.layout board.now.table × IsOf board.now.core first.one.token × IsOf board.now.core first.other.token }
            ensures { IsOf board.entry.now.core result.one.token × IsOf board.entry.now.core result.other.token }
        { play_two(rt, board, ready, alloc, round, 0, first) },
        move || -> PlayedPair
            requires { IsBoard board.now.core.layout board.now.table × IsOf board.now.core last.one.token × IsOf board.now.core last.other.token }
            ensures { IsOf board.entry.now.core result.one.token × IsOf board.entry.now.core result.other.token }
        { play_two(rt, board, ready, alloc, round, 2, last) },
    )
}
