//! What the players do. It depends on the numbers of the round, of the player and of the event alone.
ghost use Rattle.std.specs.Prelude.{◌<◌};

/// How many bindings a board has: two words of their bits for each node.
pub const BINDINGS: u32 = 96;

/// How many nodes it has.
pub const NODES: u32 = 16;

/// How many sessions it has.
pub const SESSIONS: u32 = 2;

/// How many contexts it has, each with a player.
pub const CONTEXTS: u32 = 4;

/// How many events each player meets.
pub const EVENTS: u32 = 128;

/// What an act does to a binding.
#[derive(Clone, Copy, Drop)]
pub enum Act {
    Attach,
    Disable,
    Enable,
    Dispose,
}

/// A number that looks like chance, and is the same for the same three.
fn mixed(round: u32, player: u32, event: u32) -> u32 {
    let all = round
        .wrapping_mul(2_654_435_761)
        .wrapping_add(player.wrapping_mul(2_246_822_519))
        .wrapping_add(event.wrapping_mul(3_266_489_917));
    let once = (all ^ (all >> 15)).wrapping_mul(2_246_822_519);
    let twice = (once ^ (once >> 13)).wrapping_mul(3_266_489_917);
    twice ^ (twice >> 16)
}

/// The number of the player for choices that are the same for all of them at every other event.
fn chooser(player: u32, event: u32) -> u32 {
    if event % 2 == 0 { CONTEXTS } else { player }
}

/// The node that the player loads at the event.
pub fn node_at(round: u32, player: u32, event: u32) -> u32 {
    mixed(round, chooser(player, event), event) % NODES
}

/// What the player does after the event, and to which binding; `None` where it does nothing. A third of the bindings,
/// others in each round, take all acts.
pub fn act_at(round: u32, player: u32, event: u32) -> Option<(Act, u32)> {
    let kind = mixed(round, player, event) / 64;
    let number = mixed(round, chooser(player, event), event) / 1024;
    let binding = number % (BINDINGS / 3) * 3 + round % 3;
    match kind % 16 {
        0..=4 => Some((Act::Attach, binding)),
        5..=8 => Some((Act::Disable, binding)),
        9..=12 => Some((Act::Enable, binding)),
        13 => Some((Act::Dispose, binding)),
        _ => None,
    }
}

/// The session of which the player takes an answer after the event; `None` where it takes none.
pub fn answer_at(round: u32, player: u32, event: u32) -> Option<u32> {
    let number = mixed(round, player, event) / 4096;
    if number % 4 == 3 {
        return None;
    }
    Some(number % SESSIONS)
}
