//! Shapes that were written down and not worked out: what they take and hold.
use super::rows::{bytes, counts, objects};
use cache_sizes::{MAX_LEASE_SLOTS, MAX_SHARDS, Shape};
use record_pages::{MAX_ENTRIES, MAX_LANES, MAX_MEMORY, MAX_SEGMENT_PAGES, MAX_SEGMENTS, MAX_SETS};

// Bytes of an object; bytes of files and memory; objects.
type Row = (u32, [u64; 3], [u64; 4]);

fn are_met(shape: &Shape, rows: &[Row]) -> bool {
    rows.iter().all(|row| bytes(shape, row.0) == row.1 && objects(shape, row.0) == row.2)
}

// More bytes than an object can have count as the most.
static OF_THE_GREATEST: [Row; 3] = [
    (
        0,
        [5_497_558_138_880, 508_785_852_416, 3_944_759_689_216],
        [
            17_179_869_184,
            17_179_869_184,
            127_818_226_728,
            162_177_965_096,
        ],
    ),
    (
        2303,
        [5_497_558_138_880, 508_785_852_416, 43_509_998_419_968],
        [17_179_869_184, 268_435_456, 998_579_896, 18_446_884_536],
    ),
    (
        u32::MAX,
        [5_497_558_138_880, 508_785_852_416, 43_509_998_419_968],
        [17_179_869_184, 268_435_456, 998_579_896, 18_446_884_536],
    ),
];

#[test]
fn the_greatest_shape_has_its_sizes(rt: HostRuntime) {
    let shape = Shape {
        shards: MAX_SHARDS,
        lanes: MAX_LANES,
        sets: MAX_SETS,
        segments: MAX_SEGMENTS,
        segment_pages: MAX_SEGMENT_PAGES,
        entries: MAX_ENTRIES,
        memory: MAX_MEMORY,
        lease_slots: MAX_LEASE_SLOTS,
    };
    assert!(rt; counts(&shape) == [16_384, 16_384, 81_920] && are_met(&shape, &OF_THE_GREATEST));
}

// The log has room for 72 objects, and entries for 8.
static OF_A_SMALL_ONE: [Row; 1] = [(100, [24_576, 25_644, 26_844], [4, 8, 133, 145])];

#[test]
fn a_log_holds_as_many_as_its_index(rt: HostRuntime) {
    let shape = Shape {
        shards: 1,
        lanes: 1,
        sets: 4,
        segments: 2,
        segment_pages: 1,
        entries: 8,
        memory: 4,
        lease_slots: 1,
    };
    assert!(rt; counts(&shape) == [1, 2, 6] && are_met(&shape, &OF_A_SMALL_ONE));
}
