//! The objects that a lane keeps in memory, bounded by their number.
#![tactic(auto)]

mod cache;
mod key_bytes;
mod laws;
mod pair;

pub use cache::MemoryCache;
pub use laws::{
    found_is_held, memory_keeps_all, memory_keeps_bounds, pushed_out_is_leaving,
    pushed_out_was_held,
};
pub use pair::Pair;
