//! Scripts of a cache: each line is answered, and its calls are recorded and judged.
#![tactic(auto)]

mod open_script_fault;
mod recording;
mod replies;
mod script;
mod script_fault;
mod script_lane;
mod scripted;
mod turn;

pub use script::{run_script, run_script_with_hasher};
pub use script_fault::ScriptFault;
pub use scripted::Scripted;
