//! Which objects enter the log, and what becomes of them when they leave it.
#![tactic(auto)]

mod chance;
mod judgement;
mod threshold;

pub use chance::Chance;
pub use judgement::Judgement;
pub use threshold::Threshold;
