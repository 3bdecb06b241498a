//! The tests of the boards: the one of one thread, and the one that threads share.
#![tactic(auto)]

#[cfg(test)]
mod plain;
#[cfg(test)]
mod seats;
#[cfg(test)]
mod sessions;
#[cfg(test)]
mod watched;
