//! What SL nodes make of the values of their parts.
#![tactic(auto)]

mod rules;

pub use rules::combine;
