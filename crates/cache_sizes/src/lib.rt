//! Sizes as a user has them: bytes of flash and of memory become the shape of a cache, and a shape tells its bytes.
#![tactic(auto)]

mod estimates;
mod lane_pages;
mod lanes;
mod limits;
mod memory;
mod proportions;
mod records;
mod shape;
mod size_fault;
mod wanted;

pub use estimates::{
    ESTIMATED_ENTRY_BYTES, ESTIMATED_LANE_BYTES, ESTIMATED_LEASE_SLOT_BYTES,
    ESTIMATED_OBJECT_BYTES, ESTIMATED_SEGMENT_PAGE_BYTES, ESTIMATED_SET_BYTES,
};
pub use limits::{
    MAX_ALL_LANES, MAX_LEASE_SLOTS, MAX_OBJECT_BYTES, MAX_ODD_SETS, MAX_SHARDS, MAX_THREADS,
    MIN_FLASH_BYTES, MIN_LEASE_SLOTS, MIN_STRIKES, PAGE_BYTES,
};
pub use memory::{lease_slots_of, strikes_of};
pub use records::threshold_of;
pub use shape::Shape;
pub use size_fault::SizeFault;
pub use wanted::Wanted;
