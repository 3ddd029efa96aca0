//! Names with figures, written one after another: as lines for a reader, or as one JSON object for a machine.
#![tactic(auto)]

mod figure;
mod form;
mod telling;
mod verdicts;

pub use figure::Figure;
pub use form::Form;
pub use verdicts::tell_verdict;
