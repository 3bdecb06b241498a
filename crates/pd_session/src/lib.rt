//! What a session does: the bindings that it attaches before the run, and its script's actions.
#![tactic(auto)]

mod acting;
mod before;
mod record;
mod script;

pub use before::run_before;
pub use record::{ActionResult, SessionRecord};
pub use script::run_script;
