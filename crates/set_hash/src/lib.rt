//! Where a key belongs: its hash, its lane, its set there, its tag and its places in the set's filter.
#![tactic(auto)]

mod fnv;
mod placed;
mod placing;

pub use fnv::hash;
pub use placed::Placed;
pub use placing::place;
