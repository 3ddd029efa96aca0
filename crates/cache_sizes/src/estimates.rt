// What the parts of a lane take of memory: estimates, which docs/BENCHMARKS.md holds against what was measured.

/// An estimate of the bytes of memory of a set: 48 for its filter and hit bits, 24 for two strikes, 5 for where its
/// strikes begin and how many they are, and 4 for the head of its list in the log's index.
pub const ESTIMATED_SET_BYTES: u64 = 81;

/// An estimate of the bytes of memory of an entry of the log's index: two words. Measured were 16.0.
pub const ESTIMATED_ENTRY_BYTES: u64 = 16;

/// An estimate of the bytes of memory of a page of a segment: its place in each of the log's two buffers, 4,096 each,
/// and what is noted of its records. Measured were 9,150.
pub const ESTIMATED_SEGMENT_PAGE_BYTES: u64 = 8800;

/// An estimate of the bytes of memory of a slot for leases: a count of 64 bits.
pub const ESTIMATED_LEASE_SLOT_BYTES: u64 = 8;

/// An estimate of the bytes of memory of a lane beside its parts, with the buffers of its calls. Some 6,200 were measured
/// when it was opened.
pub const ESTIMATED_LANE_BYTES: u64 = 16_384;

/// An estimate of the bytes of memory of an object beside its key and value: for list, table and allocator.
/// Measured were 146.
pub const ESTIMATED_OBJECT_BYTES: u64 = 200;
