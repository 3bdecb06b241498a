//! What the answers of acts say of their binding.
ghost use Rattle.std.specs.Prelude.{◌≡◌, ◌+◌, ◌↔◌, IsTrue};

use pd_board::{ActResult, Attach, Dispose, State, Toggle};
use std::alloc::{AllocError, Global};

/// The binding of the act.
fn binding_of(reply: ActResult) -> u32 {
    match reply {
        ActResult::Attached(b, _) => b,
        ActResult::Disposed(b, _) => b,
        ActResult::Enabled(b, _) => b,
        ActResult::Disabled(b, _) => b,
    }
}

/// The answers of acts on the binding, in order.
pub fn replies_of(
    alloc: Global,
    b: u32,
    replies: &[ActResult],
) -> Result<Vec<ActResult>, AllocError> {
    replies
        .iter()
        .copied()
        .filter(|r| binding_of(*r) == b)
        .collect(alloc)
}

/// Whether it is the answer of an attach.
fn is_attach(reply: ActResult) -> bool {
    matches!(reply, ActResult::Attached(_, _))
}

/// Whether it is the answer of an attach before which none had been tried.
fn is_first_attach(reply: ActResult) -> bool {
    is_attachment(reply) || matches!(reply, ActResult::Attached(_, Attach::Gone))
}

/// Whether it says that its attach attached the binding.
fn is_attachment(reply: ActResult) -> bool {
    matches!(reply, ActResult::Attached(_, Attach::Attached))
}

/// Whether it is the answer of a dispose.
fn is_dispose(reply: ActResult) -> bool {
    matches!(reply, ActResult::Disposed(_, _))
}

/// The count with which it says that its act disposed the binding.
fn disposal(reply: ActResult) -> Option<u64> {
    match reply {
        ActResult::Disposed(_, Dispose::Disposed { count }) => Some(count),
        _ => None,
    }
}

/// The count with which it says that its act switched the binding off.
fn disable(reply: ActResult) -> Option<u64> {
    match reply {
        ActResult::Disabled(_, Toggle::At { count }) => Some(count),
        _ => None,
    }
}

/// The count with which it says that its act switched the binding on.
fn enable(reply: ActResult) -> Option<u64> {
    match reply {
        ActResult::Enabled(_, Toggle::At { count }) => Some(count),
        _ => None,
    }
}

/// The state that the answers say.
pub fn state_of(replies: &[ActResult]) -> State {
    if replies.iter().any(|r| disposal(*r).is_some()) {
        State::Disposed
    } else if has_attachment(replies) {
        State::Live
    } else {
        State::Unattached
    }
}

/// Whether some attach attached the binding.
fn has_attachment(replies: &[ActResult]) -> bool {
    replies.iter().any(|r| is_attachment(*r))
}

/// Whether of the attaches, where there are some, just one came first; there is one that attached the binding where so
/// many numbers were drawn, if any.
pub fn one_attaches(replies: &[ActResult], count: u64) -> bool {
    if count > 0 && !has_attachment(replies) {
        return false;
    }
    let tried = replies.iter().any(|r| is_attach(*r));
    let firsts = replies.iter().filter(|r| is_first_attach(**r)).count();
    firsts == if tried { 1 } else { 0 }
}

/// Whether of the disposals, where there are some, just one disposed the binding, and found so many numbers drawn.
pub fn one_disposes(replies: &[ActResult], count: u64) -> bool {
    let tried = replies.iter().any(|r| is_dispose(*r));
    let firsts = replies.iter().filter(|r| disposal(**r).is_some()).count();
    let found = replies
        .iter()
        .filter(|r| disposal(**r) == Some(count))
        .count();
    firsts == found && firsts == if tried { 1 } else { 0 }
}

/// The counts at which the binding was switched off, and those at which it was switched on.
#[derive(Drop)]
pub struct Toggles {
    off: Vec<u64>,
    on: Vec<u64>,
}

/// How many of the counts are at most so many.
fn upto(counts: &[u64], most: u64) -> usize {
    counts.iter().filter(|n| **n <= most).count()
}

/// Whether the first is the second, and `more` besides.
fn is_more(first: usize, second: usize, more: usize) -> bool
    ensures { IsTrue result ↔ (first ≡ second + more) }
{
    second <= first && first - second == more
}

impl Toggles {
    /// The toggles that these answers tell of.
    pub fn of(alloc: Global, replies: &[ActResult]) -> Result<Toggles, AllocError> {
        let off = replies.iter().filter_map(|r| disable(*r)).collect(alloc)?;
        let on = replies.iter().filter_map(|r| enable(*r)).collect(alloc)?;
        Ok(Toggles { off, on })
    }

    /// Whether, of those up to the number, it was switched off `more` times more than on.
    pub fn is_off_by(&self, number: u64, more: usize) -> bool {
        let off = upto(self.off.as_slice(), number);
        is_more(off, upto(self.on.as_slice(), number), more)
    }

    /// Whether each was at most at this count, and it was switched off as often as on, or once more.
    pub fn end_at(&self, count: u64) -> bool {
        let within = upto(self.off.as_slice(), count) == self.off.len()
            && upto(self.on.as_slice(), count) == self.on.len();
        within && (self.is_off_by(count, 0) || self.is_off_by(count, 1))
    }
}
