//! What the record of a context is: its run, the logs, what was seen, and its suspensions.
#![tactic(auto)]

ghost use Rattle.pd_record.specs.Laws.{Everywhere, OfEachContext, EnterBegins, EndBegins, DrawServes, PassServes, SweepServes, RefusalKeeps, EventIsServed, ActKeeps, QuietKeeps, RowsAre, ServedIsLife, ReasonsAreSeen, NoneAtFirst, SessionsBegin, SessionRuns, SessionStops, SessionEnds, SessionsOver, StopsAreAll, ObservedIsAll};

/// Call by call an event is served: from an Enter's load, or the end of an activation, each draw, pass or sweep serves
/// one more binding, and where none is left all bindings are served at one more event. Acts keep them so.
pub fn serving_law()
    ensures enter { Everywhere EnterBegins }
    ensures end_of { Everywhere EndBegins }
    ensures draw { Everywhere DrawServes }
    ensures pass { Everywhere PassServes }
    ensures sweep { Everywhere SweepServes }
    ensures refusal { Everywhere RefusalKeeps }
    ensures over { Everywhere EventIsServed }
    ensures act { Everywhere ActKeeps }
    ensures quiet { Everywhere QuietKeeps }
    ensures rows { RowsAre }
    ensures life { ServedIsLife }
    ensures all { ObservedIsAll }
{}

/// Session by session the suspensions of an event are known, by what was seen so far and what was answered.
pub fn stopping_law()
    ensures reasons { OfEachContext ReasonsAreSeen }
    ensures first { OfEachContext NoneAtFirst }
    ensures begin { OfEachContext SessionsBegin }
    ensures runs { OfEachContext SessionRuns }
    ensures stops { OfEachContext SessionStops }
    ensures ends { OfEachContext SessionEnds }
    ensures over { OfEachContext SessionsOver }
    ensures all { OfEachContext StopsAreAll }
{}
