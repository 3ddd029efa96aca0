//! A cache that threads share: its lanes, each under a lock of its own, the clock that they draw stamps from, the passes of
//! its callers, and the history that is left of it with an order of its calls.
#![tactic(auto)]

mod act_answer;
mod act_fault;
mod books;
mod cache;
mod call_fault;
mod claims;
mod clock;
mod clock_full;
mod clock_rule;
mod comparing;
mod copying;
mod ending;
mod finish_fault;
mod finished;
mod lane_claims;
mod lane_fault;
mod lane_left;
mod list_place;
mod listed_calls;
mod listed_entry;
mod listed_ref;
mod moved;
mod open_cache_fault;
mod opening;
mod performing;
mod request;
mod response;
mod settling;

pub use act_answer::ActAnswer;
pub use act_fault::ActFault;
pub use books::{LaneBook, Pass};
pub use cache::SharedCache;
pub use call_fault::CallFault;
pub use clock::{Clock, ClockSeat, LAST_STAMP};
pub use clock_full::ClockFull;
pub use finish_fault::FinishFault;
pub use finished::Finished;
pub use moved::Moved;
pub use open_cache_fault::OpenCacheFault;
pub use request::Request;
pub use response::Response;
