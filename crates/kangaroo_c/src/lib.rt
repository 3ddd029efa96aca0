//! The lanes of a cache for callers in C, which `c/lane.h` declares: each export hands a call on to the crate `c_lane`, and says what
//! that does of the lane in a place of C's.
//!
//! C owes what `lane.h` says: a lane is given to one call at a time, `kl_open` gets an empty place and every other export a full
//! one, what is handed to one call does not overlap where it is written, and nobody else reads or writes a lane's pages.
#![tactic(auto)]

mod device;
mod handle;
mod keeping;
mod kept_lane;
mod lanes;
mod lent;
mod lent_pages;
mod parts;
mod sessions;
mod sizes;
mod tending;
mod traces;
mod turns;
