//! When a run is over, and what a run without fuel has used: laws of the meaning of programs.
#![tactic(auto)]

ghost use Rattle.pd_ending.specs.Ending.{EndsInTime, UsesAll};

/// A run is over after six turns for each unit of its fuel and seven more, and one that ends without fuel has
/// used all of it.
pub fn ending_law()
    ensures in_time { EndsInTime }
    ensures all { UsesAll }
{}
