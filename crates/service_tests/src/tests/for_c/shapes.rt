//! The numbers of a shape: which are in their ranges, and what they are by the sizes that are wanted.
use super::*;
use c_lane::{KeyPlace, Sizes, WantedSizes, place_of};
use cache_sizes::SizeFault;

/// Takes a shape: the numbers of its fields, in their order.
pub fn shape_of(step: &mut TextStep<'_>) -> LaneShape {
    LaneShape {
        shards: step.small(),
        lanes: step.small(),
        sets: step.small(),
        memory: step.small(),
        segments: step.small(),
        segment_pages: step.small(),
        entries: step.small(),
        lease_slots: step.small(),
        threshold: step.small(),
        admit: step.small(),
        bring_back: step.small(),
    }
}

/// Takes a shape, and tells the number of the field at fault, or 0 for none.
pub fn tell_fault(step: &mut TextStep<'_>) {
    let shape = shape_of(step);
    let number = match shape.check() {
        Ok(_) => 0,
        Err(field) => field.number(),
    };
    step.tell_number(u64::from(number));
}

/// Takes how many bytes objects have, and a shape, completes it, and tells its threshold and its slots for leases.
pub fn complete(step: &mut TextStep<'_>) {
    let object_bytes = step.small();
    let mut shape = shape_of(step);
    shape.complete(object_bytes);
    step.tell_number(u64::from(shape.threshold));
    step.tell_number(u64::from(shape.lease_slots));
}

static FAULTS: &[u8] = b"
    # The first numbers are in their ranges. The others are one below their least, or above their greatest if the least is 0.
    fault 0 0 0 0 1 0 0 0 0 65537 0 1
    fault 1 0 0 0 1 0 0 0 0 65537 0 2
    fault 1 1 0 0 1 0 0 0 0 65537 0 3
    fault 1 1 1 0 1 0 0 0 0 65537 0 4
    fault 1 1 1 1 1 0 0 0 0 65537 0 5
    fault 1 1 1 1 2 0 0 0 0 65537 0 6
    fault 1 1 1 1 2 1 0 0 0 65537 0 7
    fault 1 1 1 1 2 1 8 0 0 65537 0 8
    fault 1 1 1 1 2 1 8 1 0 65537 0 9
    fault 1 1 1 1 2 1 8 1 1 65537 0 10
    # The first numbers are the greatest that they may be, and the others one more.
    fault 1025 17 65537 1048577 257 65 1048577 1048577 33 65537 0 1
    fault 1024 17 65537 1048577 257 65 1048577 1048577 33 65537 0 2
    fault 1024 16 65537 1048577 257 65 1048577 1048577 33 65537 0 3
    fault 1024 16 65536 1048577 257 65 1048577 1048577 33 65537 0 4
    fault 1024 16 65536 1048576 257 65 1048577 1048577 33 65537 0 5
    fault 1024 16 65536 1048576 256 65 1048577 1048577 33 65537 0 6
    fault 1024 16 65536 1048576 256 64 1048577 1048577 33 65537 0 7
    fault 1024 16 65536 1048576 256 64 1048576 1048577 33 65537 0 8
    fault 1024 16 65536 1048576 256 64 1048576 1048576 33 65537 0 9
    fault 1024 16 65536 1048576 256 64 1048576 1048576 32 65537 0 10
    fault 1 1 1 1 2 1 8 1 1 65536 0 0
    fault 1024 16 65536 1048576 256 64 1048576 1048576 32 65536 0 0
";

#[test]
fn of_several_numbers_out_of_their_ranges_the_first_is_the_fault(
    rt: HostRuntime,
) -> Result<(), Fail> {
    play(rt.alloc(), FAULTS)
}

static THRESHOLDS: &[u8] = b"
    complete 100 1 1 1 1 2 1 8 1 0 65536 0 2 1
    complete 242 1 1 1 1 2 1 8 1 0 65536 0 2 1
    complete 243 1 1 1 1 2 1 8 1 0 65536 0 1 1
    complete 2303 1 1 1 1 2 1 8 1 0 65536 0 1 1
    complete 1000 1 1 1 1 2 1 8 1 3 65536 0 3 1
";

#[test]
fn a_shape_without_a_threshold_gets_that_of_its_objects(rt: HostRuntime) -> Result<(), Fail> {
    play(rt.alloc(), THRESHOLDS)
}

static SLOTS: &[u8] = b"
    complete 100 1 1 1 1 2 1 8 0 1 65536 0 1 1024
    complete 100 1 1 4099 1 2 1 8 0 1 65536 0 1 1024
    complete 100 1 1 4100 1 2 1 8 0 1 65536 0 1 1025
    complete 100 1 1 4100 1 2 1 8 7 1 65536 0 1 7
";

#[test]
fn a_shape_without_slots_gets_one_for_four_sets(rt: HostRuntime) -> Result<(), Fail> {
    play(rt.alloc(), SLOTS)
}

// One lane of one set, with one object in memory and two segments of one page.
static SHAPE: LaneShape = LaneShape {
    shards: 1,
    lanes: 1,
    sets: 1,
    memory: 1,
    segments: 2,
    segment_pages: 1,
    entries: 8,
    lease_slots: 1,
    threshold: 1,
    admit: 65536,
    bring_back: 0,
};

#[test]
fn sizes_become_a_shape_and_a_shape_sizes(rt: HostRuntime) -> Result<(), Fail> {
    let wanted = WantedSizes {
        flash_bytes: 1 << 30,
        memory_bytes: 128 << 20,
        object_bytes: 100,
        threads: 1,
    };
    let mut shape = SHAPE;
    assert!(rt;
        wanted.write_shape(&mut shape).is_ok()
            && shape.shards == 1
            && shape.lanes == 16
            && shape.threshold == 1
            && shape.admit == 65536
    );
    let sizes = Sizes::of(&shape, 100);
    assert!(rt;
        sizes.file_bytes <= 1 << 30
            && sizes.file_bytes > 1 << 29
            && sizes.lane_pages * 16 * 4096 == sizes.file_bytes
    );
    let none = WantedSizes {
        threads: 0,
        ..wanted
    };
    assert!(rt; none.write_shape(&mut shape) == Err(SizeFault::NoThreads));
    Ok(())
}

#[test]
fn keys_lie_in_all_lanes(rt: HostRuntime) {
    let mut seen = [0u32; 4];
    for number in 0..64u8 {
        let KeyPlace { lane, word: _ } = place_of(&SEED, 4, &[b'k', number]);
        let count = &mut seen[lane as usize % 4];
        *count = count.saturating_add(1);
    }
    assert!(rt; seen[0] > 4 && seen[1] > 4 && seen[2] > 4 && seen[3] > 4);
}
