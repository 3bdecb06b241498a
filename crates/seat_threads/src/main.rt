//! Plays rounds: in each, four threads with a seat each draw from one shared board beside attaches, toggles and
//! disposals, and the tally of the board is compared with what all of them were told. Prints a line for each round that
//! does not agree, or one line where all do; it is the same whatever order the threads ran in.
#![tactic(auto)]

mod bindings;
mod choices;
mod compare;
mod fault;
mod numbers;
mod play;
mod player;
mod replies;
mod round;
mod rows;
mod seen;
mod sights;
mod threads;

use crate::round::play_round;
use std::io;

/// How many rounds are played.
const ROUNDS: u32 = 100;

fn main(rt: HostRuntime) -> io::Result<()> {
    let alloc = rt.alloc();
    let mut differ = 0u32;
    for round in 0..ROUNDS {
        if let Err(fault) = play_round(&rt, alloc, round) {
            differ = differ.saturating_add(1);
            println!(rt; "round {round}: {fault:?}")?;
        }
    }
    if differ == 0 {
        println!(rt; "{ROUNDS} rounds, all tallies agree")?;
    }
    Ok(())
}
