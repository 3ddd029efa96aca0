//! A Bloom filter of 256 bits: the set of the bits that were added to it.
#![tactic(auto)]

mod filter;

pub use filter::Filter;
