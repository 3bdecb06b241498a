//! Hits of breakpoints: which of them suspend.
ghost use Rattle.std.specs.Prelude.{◌≡◌};
ghost use Rattle.pd_break.specs.Hits.{decision};

/// What a hit of a breakpoint does.
#[derive(Clone, Copy, Debug, Drop, PartialEq, Eq)]
pub enum Decision {
    /// It suspends the session that the breakpoint names.
    Suspend,
    /// It is only counted.
    Count,
}

/// What a breakpoint's hit at this place does. The place of a hit is its number among the breakpoint's hits, counted
/// from 0 over all contexts. The first `ignore` hits are only counted; each later one suspends, and of a one-shot the
/// first of these alone. It takes no memory.
pub fn decide(place: u64, ignore: u32, one_shot: bool) -> Decision
    ensures { result ≡ decision place ignore one_shot }
{
    let ignore = u64::from(ignore);
    let suspends = if one_shot {
        place == ignore
    } else {
        place >= ignore
    };
    if suspends {
        Decision::Suspend
    } else {
        Decision::Count
    }
}
