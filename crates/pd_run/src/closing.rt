//! A board is closed, and the report made.
ghost use Rattle.std.specs.Prelude.{◌≡◌, ◌≤◌, ◌++◌, IfOk, length, vec_len};
ghost use Rattle.pd_shared.specs.Closed.{IsClosed};
ghost use Rattle.pd_shared.specs.Sitting.{IsOf};

use crate::report::Report;
use pd_session::SessionRecord;
use pd_shared::{SharedBoard, Sights, Token};
use pd_suspend::ContextRecord;
use pd_values::Items;
use std::alloc::{AllocError, Global};

/// Closes the board with its last token, and makes the report of what contexts and sessions gave and of what their
/// seats left, contexts first. Conditions: the token is one of the board, and there are sights of each context.
pub fn closed(
    alloc: Global,
    board: SharedBoard,
    last: Token,
    contexts: Vec<ContextRecord>,
    sessions: Vec<SessionRecord>,
    left: Vec<Sights>,
) -> Result<Report, AllocError>
    requires of { IsOf board.core last }
    requires enough { length contexts.items ≤ length left.items }
    ensures closed { IfOk result (λ r. IsClosed board.core.layout last r.tally.bindings r.tally.answers) }
    ensures contexts { IfOk result (λ r. r.contexts ≡ contexts.items) }
    ensures sessions { IfOk result (λ r. r.sessions ≡ sessions.items) }
    ensures left { IfOk result (λ r. r.sights ++ r.scripts ≡ left.items) }
    ensures each { IfOk result (λ r. length r.sights ≡ length contexts.items) }
{
    let mut sights = left;
    let scripts = sights.split_off(contexts.len())?;
    let tally = board.close(alloc, last)?;
    Ok(Report {
        contexts: Items::of(contexts),
        sessions: Items::of(sessions),
        sights: Items::of(sights),
        scripts: Items::of(scripts),
        tally,
    })
}
