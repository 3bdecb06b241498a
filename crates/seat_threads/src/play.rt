//! What a player does from its first event to its last.
ghost use Rattle.std.specs.Prelude.{◌≡◌};
ghost use Rattle.pd_shared.specs.Sitting.{IsOf};
ghost use Rattle.seat_threads.specs.Fit.{IsBoard};

use crate::choices::{BINDINGS, CONTEXTS, EVENTS, act_at, answer_at, node_at};
use crate::fault::Fault;
use crate::player::{Player, Rested};
use crate::seen::Seen;
use pd_shared::{SharedBoard, Token};
use std::alloc::Global;
use std::sync::atomic::{AtomicU32, Ordering};
use std::thread;

/// How often a player that is ready lets others run before it begins without them.
const PATIENCE: u32 = 200;

/// The token of a player that has played, what its calls told, and whether it played to its end.
#[derive(Drop)]
pub struct Played {
    pub token: Token,
    pub seen: Seen,
    pub ended: Result<(), Fault>,
}

/// Waits until all players are ready, or for a while, so that they play beside one another.
fn meet_others(ready: &AtomicU32) {
    ready.fetch_add(1, Ordering::SeqCst);
    for _ in 0..PATIENCE {
        if ready.load(Ordering::SeqCst) >= CONTEXTS {
            return;
        }
        thread::yield_now();
    }
}

/// Plays an event: loads a node, meets its bindings, makes an act and takes an answer.
fn play_event(
    player: &mut Player<'_>,
    alloc: Global,
    round: u32,
    number: u32,
    event: u32,
) -> Result<(), Fault>
    ensures hub { player.new.seat.hub ≡ player.old.seat.hub }
{
    player.reserve(alloc, BINDINGS + 2)?;
    player.load(node_at(round, number, event))?;
    player.meet_all(event)?;
    if let Some((act, b)) = act_at(round, number, event) {
        player.act(act, b)?;
    }
    if let Some(session) = answer_at(round, number, event) {
        player.answer(session)?;
    }
    Ok(())
}

/// Plays all events, and ends. It lets other threads run now and then.
fn play_events(player: &mut Player<'_>, alloc: Global, round: u32, number: u32) -> Result<(), Fault>
    ensures hub { player.new.seat.hub ≡ player.old.seat.hub }
{
    for event in 0..EVENTS {
        play_event(player, alloc, round, number, event)?;
        if event % 4 == 0 {
            thread::yield_now();
        }
    }
    player.end()
}

/// Plays on the board as the player of this number, when all are `ready`, and leaves it.
pub fn play(
    board: &SharedBoard,
    ready: &AtomicU32,
    alloc: Global,
    round: u32,
    number: u32,
    rested: Rested,
) -> Played
    requires board { IsBoard board.now.core.layout board.now.table }
    requires of { IsOf board.now.core rested.token }
    ensures { IsOf board.now.core result.token }
{
    let mut player = Player::sit(board, rested);
    meet_others(ready);
    let ended = play_events(&mut player, alloc, round, number);
    let (token, seen) = player.leave();
    Played { token, seen, ended }
}
