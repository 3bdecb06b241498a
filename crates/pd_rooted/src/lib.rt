//! In each program that was loaded the root of each item has its tag: a law of loading.
#![tactic(auto)]

ghost use Rattle.pd_rooted.specs.Rooted.{LoadedAreRooted};

/// The root of each function, procedure and main block of a loaded program has the tag of roots, so some of them runs at
/// each event of a run of it.
pub fn rooted_law()
    ensures { LoadedAreRooted }
{}
