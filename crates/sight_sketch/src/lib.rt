//! Which keys were met before: bits of hashes, in two halves that are cleared in turn.
#![tactic(auto)]

mod bit_row;
mod laws;
mod sketch;

pub use laws::sketch_laws;
pub use sketch::{MAX_SIGHT_WORDS, SightSketch};
