//! The tests of the top call, apart from those of the crates below, which need not wait for the whole program.
#![tactic(auto)]

#[cfg(test)]
mod top;
