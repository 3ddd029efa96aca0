// What a load of a cache that serves is asked for.
ghost use Rattle.std.specs.Prelude.{◌≤◌};

use record_pages::Layout;
use trace_file::FileName;

/// What a load of a cache that serves is asked for: the cache, its callers and workers, their operations, and the files. Each
/// number is in the range of its `Setting`.
#[derive(Drop)]
pub struct ServeLoad {
    /// The numbers of each shard. If a size is given, only its threshold and its admission count.
    pub layout: Layout,
    /// Callers, each in a thread of its own.
    pub callers: u32,
    /// Operations of each caller.
    pub operations: u32,
    /// Keys that each caller has for itself.
    pub keys: u32,
    /// Bytes of each value.
    pub value_bytes: u32,
    /// Gets, in per cent of the operations.
    pub gets: u32,
    /// Removes, in per cent of the operations. With the gets they may exceed 100; such a load is refused
    /// when it is to be run.
    pub removes: u32,
    /// Workers that do upkeep, each in a thread of its own.
    pub workers: u32,
    /// The seed of the callers' random words.
    pub seed: u32,
    /// Operations of its caller after which a put expires; 0 for never.
    pub ttl: u32,
    /// Groups of as many lanes. If a size is given, they do not count.
    pub shards: u32,
    /// Slots of each lane for leases; 0 for no leases.
    pub leases: u32,
    /// Of so many hits on flash one has its object brought back into memory, in each lane; 0 brings none back.
    pub bring_back: u32,
    /// Seconds after which no caller begins an operation; 0 for no such limit.
    pub seconds: u32,
    /// Bytes of flash that the cache is to be made for, of all lanes together; none if its numbers are given.
    pub size: Option<u64>,
    /// Bytes of memory that the cache is to be made for, if a size is given; none for a part of the size.
    pub memory_bytes: Option<u64>,
    /// Whether keys are drawn by Zipf's law and not alike.
    pub zipf: bool,
    /// Whether what is reported is a JSON object and not lines.
    pub json: bool,
    /// The folder of the lanes' files; none for devices in memory.
    pub device: Option<FileName>,
    ghost callers_range: { (1 ≤ callers) × (callers ≤ 64) },
    ghost operations_range: { (1 ≤ operations) × (operations ≤ 1000000000) },
    ghost keys_range: { (1 ≤ keys) × (keys ≤ 100000000) },
    ghost value_bytes_range: { (8 ≤ value_bytes) × (value_bytes ≤ 2048) },
    ghost gets_range: { gets ≤ 100 },
    ghost removes_range: { removes ≤ 100 },
    ghost workers_range: { (1 ≤ workers) × (workers ≤ 16) },
    ghost ttl_range: { ttl ≤ 1000000000 },
    ghost shards_range: { (1 ≤ shards) × (shards ≤ 1024) },
    ghost leases_range: { leases ≤ 1048576 },
    ghost bring_back_range: { bring_back ≤ 1000000 },
    ghost seconds_range: { seconds ≤ 2147483648 },
}
