// The three places of a cache, in the order in which a get asks them.

/// A tier of the cache.
#[derive(Clone, Copy, PartialEq, Eq)]
pub enum Tier {
    /// The objects kept in DRAM.
    Memory,
    /// The log on flash, with its buffers.
    Log,
    /// The hashed sets on flash.
    Set,
}
