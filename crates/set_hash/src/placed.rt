// Where a key belongs.

/// Where a key belongs in a cache.
#[derive(Clone, Copy, PartialEq, Eq)]
pub struct Placed {
    /// The hash of the key.
    pub hash: u64,
    /// The lane that holds it.
    pub lane: u32,
    /// Its set in that lane.
    pub set: u32,
    /// The high 16 bits of the hash, by which the log's index knows the key.
    pub tag: u16,
    /// Its four bits in the filter of its set.
    pub probes: [u8; 4],
}
