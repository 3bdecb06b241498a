//! The frames at each event of every run, and where the blocks stand that they see: laws of the meaning of programs.
#![tactic(auto)]

ghost use Rattle.pd_framing.specs.Framing.{EventsAreFramed};

/// At each event of what a program means, the frames are those of the functions and procedures that run there, and the
/// blocks that each of them sees stand where static nesting puts them. So it is where the root of each item has its tag,
/// and no part that is run is a function or a procedure.
pub fn framing_law()
    ensures framed { EventsAreFramed }
{}
