//! The trees of all sources, linked into one program.
#![tactic(auto)]

mod items;
mod joined;
mod places;
mod program;
mod scope;
mod shape;
mod walk;

pub use program::link;
