//! How the events of every run are nested: laws of the meaning of programs, and of linked programs.
#![tactic(auto)]

ghost use Rattle.pd_nesting.specs.Nesting.{EventsAreNested, EventsAreCovered, LinkedAreRooted};

/// The events of what a program means are nested, and where the root of the entry has its tag, some function or procedure
/// runs at each of them. In a linked program the root of each item has its tag.
pub fn nesting_law()
    ensures nested { EventsAreNested }
    ensures covered { EventsAreCovered }
    ensures rooted { LinkedAreRooted }
{}
