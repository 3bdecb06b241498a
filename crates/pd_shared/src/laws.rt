//! What holds of the steps of a seat's calls.
ghost use Rattle.pd_shared.specs.Steps.{CountsOne, CountsChain, CountsAttach, CountsDraw};
ghost use Rattle.pd_shared.specs.Costs.{CallsCost, EnterCosts, EndCosts};

/// By how much each call raises the number of a seat's steps, and what the calls cost that serve one event.
pub fn steps_are_counted()
    ensures one { CountsOne }
    ensures chain { CountsChain }
    ensures attach { CountsAttach }
    ensures draw { CountsDraw }
    ensures calls { CallsCost }
    ensures enter { EnterCosts }
    ensures end { EndCosts }
{}
