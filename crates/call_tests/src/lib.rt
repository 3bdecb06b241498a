//! The tests of the crates below, a file for each crate.
#![tactic(auto)]

#[cfg(test)]
mod core_words;
#[cfg(test)]
mod fixtures;
#[cfg(test)]
mod link;
#[cfg(test)]
mod load;
#[cfg(test)]
mod log;
#[cfg(test)]
mod outside;
#[cfg(test)]
mod pl0_lex;
#[cfg(test)]
mod pl0_read;
#[cfg(test)]
mod sections;
#[cfg(test)]
mod sl_lex;
#[cfg(test)]
mod sl_read;
#[cfg(test)]
mod suspend;
#[cfg(test)]
mod tree;
#[cfg(test)]
mod turn;
