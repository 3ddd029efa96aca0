//! A load of a cache that serves: its callers and workers in threads on one cache, what its callers know of their keys, and what
//! is reported of it.
#![tactic(auto)]

mod advice;
mod cache_shape;
mod call_times;
mod caller;
mod caller_stop;
mod caller_tally;
mod count_rows;
mod hit_rows;
mod lane_end;
mod made;
mod objects;
mod report;
mod right;
mod room;
mod serve_cause;
mod serve_crew;
mod serve_end;
mod serve_outcome;
mod serving;
mod shared_load;
mod sized;
mod sums;
mod tally;
mod time_limit;
mod told_hit;
mod words;

pub use cache_shape::CacheShape;
pub use objects::KEY_BYTES;
pub use report::{Report, Timed};
pub use serve_end::ServeEnd;
pub use serving::{serve_load, serve_over};
pub use told_hit::ToldHit;
pub use words::Known;
