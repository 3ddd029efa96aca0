//! Hashes of keys by a seed that is drawn at random, for maps whose keys a stranger picks.
#![tactic(auto)]

mod key_hasher;
mod random_seed;
mod words;

pub use key_hasher::KeyHasher;
pub use random_seed::RandomSeed;
