//! What is wanted, a shape and what it takes and holds, as rows of numbers.
use cache_sizes::{Shape, Wanted};

/// Bytes of flash, bytes of memory, bytes of a typical object, threads.
pub type Sizes = (u64, u64, u32, u32);

/// What is wanted by these sizes.
pub fn wanted((flash_bytes, memory_bytes, object_bytes, threads): Sizes) -> Wanted {
    Wanted {
        flash_bytes,
        memory_bytes,
        object_bytes,
        threads,
    }
}

/// Shards, lanes, sets, segments, pages of a segment, entries of the log's index, objects in memory, slots for leases.
pub fn parts(shape: &Shape) -> [u32; 8] {
    [
        shape.shards,
        shape.lanes,
        shape.sets,
        shape.segments,
        shape.segment_pages,
        shape.entries,
        shape.memory,
        shape.lease_slots,
    ]
}

/// Lanes of all shards, pages of a lane's log and pages of its file.
pub fn counts(shape: &Shape) -> [u64; 3] {
    [
        u64::from(shape.all_lanes()),
        u64::from(shape.segments * shape.segment_pages),
        shape.file_pages(),
    ]
}

/// Bytes of all files, bytes of memory from the start, and when it is full.
pub fn bytes(shape: &Shape, object_bytes: u32) -> [u64; 3] {
    [
        shape.flash_bytes(),
        shape.fixed_bytes(),
        shape.memory_bytes(object_bytes),
    ]
}

/// Objects in memory, in the logs, in the sets, and in all.
pub fn objects(shape: &Shape, object_bytes: u32) -> [u64; 4] {
    [
        shape.objects_in_memory(),
        shape.objects_in_logs(object_bytes),
        shape.objects_in_sets(object_bytes),
        shape.objects(object_bytes),
    ]
}
