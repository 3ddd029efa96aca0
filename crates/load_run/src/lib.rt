//! The run of a load: its callers and workers in threads on one cache, and what is reported of it.
#![tactic(auto)]

mod caller;
mod hits;
mod in_files;
mod load_result;
mod run;
mod run_cause;
mod run_crew;
mod run_end;
mod run_outcome;
mod shared;
mod summary;
mod telling;

pub use load_result::{LoadResult, make_history};
pub use run::run_load;
pub use run_end::RunEnd;
pub use summary::Summary;
