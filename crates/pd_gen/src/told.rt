//! What is told of the run of a workload.
use pd_values::{Items, Text};

/// What is told of the run of a workload.
#[derive(Drop)]
pub struct Summary {
    /// The number of the workload.
    pub number: u32,
    /// How many contexts ran.
    pub contexts: u32,
    /// How many of them ended with a value.
    pub done: u32,
    /// How many events they had, all together.
    pub events: u64,
    /// The count of each binding, by its number.
    pub counts: Items<u64>,
    /// The last line that the first context wrote, without its end; empty where it wrote none.
    pub last: Text,
}
