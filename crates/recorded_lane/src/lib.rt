//! A lane of the cache whose calls are recorded as they are answered, in the order in which they were done.
#![tactic(auto)]

mod call_record;
mod lane;
mod laws;
mod noted;
mod noted_ref;
mod record_fault;
mod record_put_fault;
mod recorded_parts;

pub use lane::{MAX_CALLS, RecordedLane};
pub use laws::accepted_in_turn;
pub use noted::Noted;
pub use noted_ref::NotedRef;
pub use record_fault::RecordFault;
pub use record_put_fault::RecordPutFault;
pub use recorded_parts::RecordedParts;
