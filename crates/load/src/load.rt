// What a run is asked for.
ghost use Rattle.std.specs.Prelude.{◌≤◌};

use record_pages::Layout;
use trace_file::FileName;

/// What a run is asked for: the cache, its callers and workers, their operations, and the files. Each
/// number is in the range of its `Setting`.
#[derive(Drop)]
pub struct Load {
    /// The numbers of the cache.
    pub layout: Layout,
    /// Callers, each in a thread of its own.
    pub callers: u32,
    /// Operations of each caller.
    pub operations: u32,
    /// Keys that the callers share.
    pub keys: u32,
    /// Bytes of each value.
    pub value_bytes: u32,
    /// Gets, in per cent of the operations.
    pub gets: u32,
    /// Removes, in per cent of the operations. With the gets they may exceed 100; such a load is refused
    /// when it is to be run.
    pub removes: u32,
    /// Workers that flush and move, each in a thread of its own.
    pub workers: u32,
    /// The seed of the callers' random words.
    pub seed: u32,
    /// Operations of its caller after which a put expires; 0 for never.
    pub ttl: u32,
    /// Whether what is reported is a JSON object and not lines.
    pub json: bool,
    /// The folder of the lanes' files; none for devices in memory.
    pub device: Option<FileName>,
    /// The file that the trace is written to.
    pub trace: FileName,
    ghost callers_range: { (1 ≤ callers) × (callers ≤ 64) },
    ghost operations_range: { (1 ≤ operations) × (operations ≤ 1000000) },
    ghost keys_range: { (1 ≤ keys) × (keys ≤ 1000000) },
    ghost value_bytes_range: { value_bytes ≤ 2048 },
    ghost gets_range: { gets ≤ 100 },
    ghost removes_range: { removes ≤ 100 },
    ghost workers_range: { (1 ≤ workers) × (workers ≤ 16) },
    ghost ttl_range: { ttl ≤ 1000000 },
}
