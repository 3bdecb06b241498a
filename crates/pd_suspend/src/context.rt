//! The record of one context.
use crate::suspension::Suspension;
use pd_board::Sight;
use pd_log::Entry;
use pd_values::{End, Items, Text};

/// The record of one context of a plan: its run, what each binding was given of it, and where it was suspended.
#[derive(Drop)]
pub struct ContextRecord {
    /// The bytes that it wrote.
    pub output: Text,
    pub end: End,
    /// The fuel that it used.
    pub used: u32,
    /// The number of its events.
    pub events: u32,
    /// For each binding, by its number, its log.
    pub logs: Items<Items<Entry>>,
    /// What it saw of its bindings, in order.
    pub seen: Items<Sight>,
    /// Its suspensions, by event and then by session.
    pub stops: Items<Suspension>,
}
