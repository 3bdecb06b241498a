//! The order of a run's events: laws of the meaning of programs.
#![tactic(auto)]

ghost use Rattle.pd_order.specs.Order.{EventsAreFew, EventsAreInOrder, EventsArePlaced};

/// The events of a run are numbered from 0, each end of an activation is that of the innermost open one, and each unit of
/// fuel gives two events at most. In a linked program each event is of a node of the program, its depth is the number of
/// its frames, and each of these is of a node of the program and stands at one; the innermost, which there always is,
/// stands at the event's.
pub fn order_law()
    ensures in_order { EventsAreInOrder }
    ensures few { EventsAreFew }
    ensures placed { EventsArePlaced }
{}
