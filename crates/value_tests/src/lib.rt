//! The tests of the values and operators, which stand on nothing else.
#![tactic(auto)]

#[cfg(test)]
mod values;
