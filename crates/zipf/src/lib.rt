//! Draws by Zipf's law with exponent 1, in whole numbers: the rank that a random word draws, and the key that has a rank.
#![tactic(auto)]

mod ranks;
mod scattering;
mod sums;

pub use ranks::Ranks;
pub use scattering::scattered;
pub use sums::{MOST_RANKS, MOST_SUMS};
