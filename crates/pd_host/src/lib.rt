//! The run of a plan: its contexts and sessions in threads of their own over one shared board, and the report.
#![tactic(auto)]

mod board;
mod records;
mod run;
mod work;

pub use run::run_plan;
