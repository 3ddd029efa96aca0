//! A lane that serves: a store with counters and leases, of which nothing is recorded. What it was asked and answered is there
//! in proofs alone: it takes no memory, however long the lane serves. It also says when a page of the log is due to be
//! written, and when records are due to move.
#![tactic(auto)]

mod copied;
mod copies;
mod copy_store;
mod counter;
mod counts;
mod due;
mod filled;
mod helped;
mod key_buffer;
mod lane;
mod lease;
mod new_copy;
mod open_lane_fault;
mod seen;
mod slots;
mod upkept;
mod words;

pub use copied::Copied;
pub use counter::Counter;
pub use counts::{COUNTERS, Counts};
pub use due::{Due, is_near_end, what_is_due};
pub use filled::Filled;
pub use helped::{Helped, MAX_HELP_STEPS};
pub use key_buffer::KeyBuffer;
pub use lane::ServiceLane;
pub use lease::Lease;
pub use open_lane_fault::OpenLaneFault;
pub use slots::hash_by;
pub use upkept::{UpkeepStep, Upkept};
pub use words::words_of;
