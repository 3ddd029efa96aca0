//! How many pages may be written: a bucket of pages that fills as time goes by, with room for those of a minute.
#![tactic(auto)]

mod budget;
mod laws;
mod limits;

pub use budget::WriteBudget;
pub use laws::budget_laws;
pub use limits::{MAX_PAGES_A_DAY, MILLISECONDS_A_DAY, MILLISECONDS_OF_ROOM};
