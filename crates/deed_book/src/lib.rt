//! One list of all writes of a cache, which threads share: the list is there in proofs alone, and in bytes a number a lane. A lane
//! enters its writes in it, and a seat says which beginning of it a caller has seen.
#![tactic(auto)]

mod book;
mod lanes;
mod offered_write;
mod register;
mod rule;
mod seat;
mod written;

pub use book::{NamedBook, UnnamedBook};
pub use lanes::{BookName, KeyLanes, OneLane};
pub use offered_write::OfferedWrite;
pub use register::{EntryFault, MAX_WRITES, Register};
pub use seat::Seat;
pub use written::Written;
