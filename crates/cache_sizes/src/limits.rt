// The limits of what is wanted, and of what a shape has beside the numbers of a configuration. Those have their limits
// in `record_pages`.
use record_pages::{Key, MAX_LANES, MAX_SETS, Value};

/// Bytes of a page, the unit in which flash is read and written.
pub const PAGE_BYTES: u64 = 4096;

/// The least bytes of flash, three pages: one of a set, and one of each of the two segments that a log has at least.
pub const MIN_FLASH_BYTES: u64 = 3 * PAGE_BYTES;

/// The most bytes of an object, a key and a value.
pub const MAX_OBJECT_BYTES: u32 = (Key::MAX_LEN + Value::MAX_LEN) as u32;

/// The most threads, a quarter of the most lanes. A thread is given sixteen lanes while there are that many.
pub const MAX_THREADS: u32 = MAX_ALL_LANES / 4;

/// The most shards: they have some 4 TiB of flash.
pub const MAX_SHARDS: u32 = 1024;

/// The most lanes of all shards.
pub const MAX_ALL_LANES: u32 = MAX_SHARDS * MAX_LANES;

/// The most sets of a lane that `Shape::of` gives it: the greatest odd number of them.
pub const MAX_ODD_SETS: u32 = MAX_SETS - 1;

/// The least slots for leases that `Shape::of` gives a lane: with fewer, many keys of a small lane would share one.
pub const MIN_LEASE_SLOTS: u32 = 1024;

/// The least number of strikes that a lane which serves has room for: a small lane has few sets, and each of eight strikes at
/// most.
pub const MIN_STRIKES: u32 = 64;

/// The most slots for leases of a lane.
pub const MAX_LEASE_SLOTS: u32 = 1_048_576;
