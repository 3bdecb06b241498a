//! One round: a new board, four seats of it in four threads, and its tally.
ghost use Rattle.std.specs.Prelude.{◌≡◌, IfOk};
ghost use Rattle.pd_board.specs.Standing.{IsNew};
ghost use Rattle.pd_shared.specs.Sitting.{IsOf, standing_of};
ghost use Rattle.seat_threads.specs.Fit.{IsBoard};

use crate::choices::{Act, BINDINGS, CONTEXTS, NODES, SESSIONS};
use crate::compare::agree;
use crate::fault::Fault;
use crate::player::{Player, Rested};
use crate::rows::table;
use crate::seen::Seen;
use crate::threads::{Pair, PlayedPair, play_four};
use pd_shared::{SharedBoard, Sights, Token};
use std::alloc::Global;
use std::thread::Threads;

/// What seats leave: the last token, what each was told, and what those that retired had kept.
#[derive(Drop)]
struct Ended {
    last: Token,
    seen: Vec<Seen>,
    kept: Vec<Sights>,
}

/// The first player attaches every other binding.
fn attach_some(first: &mut Player<'_>, alloc: Global) -> Result<(), Fault>
    ensures hub { first.new.seat.hub ≡ first.old.seat.hub }
{
    first.reserve(alloc, BINDINGS)?;
    for b in 0..BINDINGS {
        if b % 2 == 0 {
            first.act(Act::Attach, b)?;
        }
    }
    Ok(())
}

/// The four players of a new board. The first has attached some bindings.
fn players(alloc: Global, board: &SharedBoard, token: Token) -> Result<(Pair, Pair), Fault>
    requires board { IsBoard board.now.core.layout board.now.table }
    requires of { IsOf board.now.core token }
    requires new { IsNew board.now.table 16 2 4 (standing_of (record { hub = board.now.core; table = board.now.table; token = token })) }
    ensures first { IfOk result (λ r. IsOf board.now.core r.0.one.token × IsOf board.now.core r.0.other.token) }
    ensures last { IfOk result (λ r. IsOf board.now.core r.1.one.token × IsOf board.now.core r.1.other.token) }
{
    let mut first = Player::sit(board, Rested::first(alloc, board, token));
    attach_some(&mut first, alloc)?;
    let second = first.split(alloc)?.rest();
    let third = first.split(alloc)?.rest();
    let fourth = first.split(alloc)?.rest();
    Ok((
        Pair {
            one: first.rest(),
            other: second,
        },
        Pair {
            one: third,
            other: fourth,
        },
    ))
}

/// Three seats that have played retire into the first, which rises.
fn gathered(
    alloc: Global,
    board: &SharedBoard,
    first: PlayedPair,
    last: PlayedPair,
) -> Result<Ended, Fault>
    requires first { IsOf board.now.core first.one.token × IsOf board.now.core first.other.token }
    requires last { IsOf board.now.core last.one.token × IsOf board.now.core last.other.token }
    ensures { IfOk result (λ e. IsOf board.now.core e.last) }
{
    let PlayedPair { one, other: two } = first;
    let PlayedPair {
        one: three,
        other: four,
    } = last;
    one.ended?;
    two.ended?;
    three.ended?;
    four.ended?;
    let mut seat = board.sit(one.token);
    let second = board.sit(two.token).retire(&mut seat);
    let third = board.sit(three.token).retire(&mut seat);
    let fourth = board.sit(four.token).retire(&mut seat);
    let last = seat.rise();
    Ok(Ended {
        last,
        seen: vec![in alloc; two.seen, three.seen, four.seen, one.seen]?,
        kept: vec![in alloc; second, third, fourth]?,
    })
}

/// Four seats of the board play in four threads, and come together again.
fn played_on<R: Threads + Sync>(
    rt: &R,
    alloc: Global,
    board: &SharedBoard,
    token: Token,
    round: u32,
) -> Result<Ended, Fault>
    requires board { IsBoard board.now.core.layout board.now.table }
    requires of { IsOf board.now.core token }
    requires new { IsNew board.now.table 16 2 4 (standing_of (record { hub = board.now.core; table = board.now.table; token = token })) }
    ensures { IfOk result (λ e. IsOf board.now.core e.last) }
{
    let (first, last) = players(alloc, board, token)?;
    let (first, last) = play_four(rt, board, alloc, round, first, last);
    gathered(alloc, board, first, last)
}

/// Plays a round, and compares the tally of its board with what its seats were told.
pub fn play_round<R: Threads + Sync>(rt: &R, alloc: Global, round: u32) -> Result<(), Fault> {
    let table = table(alloc)?;
    let (board, token) = SharedBoard::new(alloc, &table, NODES, SESSIONS, CONTEXTS)?;
    let ended = played_on(rt, alloc, &board, token, round)?;
    let tally = board.close(alloc, ended.last)?;
    let (bindings, answers) = (tally.bindings(), tally.answers());
    agree(
        alloc,
        bindings,
        answers,
        ended.seen.as_slice(),
        ended.kept.as_slice(),
    )
}
