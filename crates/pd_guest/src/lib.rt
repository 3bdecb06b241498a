//! One context: it serves each event of its run over a board, and keeps the record.
#![tactic(auto)]

mod acting;
mod deliver;
mod finishing;
mod first;
mod hits;
mod moment;
mod offering;
mod reasons;
mod record;
mod serving;
mod showing;
mod stopping;
mod verdict;
mod watch;

pub use first::{FirstBoard, FirstList};
pub use record::run_context;
