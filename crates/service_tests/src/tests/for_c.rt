//! A lane for callers in C, from its opening to its end: each status once, and what the counters say then. A test is a text whose steps
//! are calls of a lane; the README says which steps there are.
mod judging;
mod run;
mod scripted;
mod shapes;

use self::scripted::play;
use super::words::place_among;
use c_lane::{CLane as LaneOver, Hit, LaneShape, Seed, Status};
use page_device::MemoryDevice;
use service_lane::Lease;
use std::alloc::Global;
use std::test::Fail;
use test_devices::{TextStep, is};

type Device = MemoryDevice<4096>;

type CLane = LaneOver<Device>;

static SEED: Seed = Seed {
    first: 0x0123_4567_89ab_cdef,
    second: 0xfedc_ba98_7654_3210,
};

static EACH_STATUS: &[u8] = b"
    # One lane of one set, with one object in memory and two segments of one page.
    open 3 1 1 1 1 2 1 8 1 1 65536 0 done
    get ax 0 absent; put ax 1 9 done; get ax 8 memory 1; get ax 9 expired
    get - 0 wrong key; get k*256 0 wrong key; get k*255 0 absent
    put - 1 0 wrong key; put k*256 1 0 wrong key; put ax v*2049 0 too large; put - v*2049 0 wrong key
    get ax 8 memory 1
    put ax abcd done; get-into 3 ax 0 short buffer 4; get ax 18446744073709551615 memory abcd
    put-or-remove ax 12 done; get ax 0 memory 12
    put-or-remove ax v*2049 too large; get ax 0 absent; put-or-remove - 1 wrong key
    get-or-lease 0 ax absent; fill 0 ax 3 done; fill 0 ax 4 stale; get ax 0 memory 3
    lease 0 ax done; fill 0 ax 6 done; fill 0 ax 7 stale
    fill 0 - 4 wrong key; fill 0 ax v*2049 too large
    remove ax done; remove - wrong key; get ax 0 absent
    get-or-lease 1 ax absent; fill 1 bx 5 stale; remove ax done; fill 1 ax 5 stale; get ax 0 absent
    count memory_hits 6; count absent 7; count expired 1; count puts 3; count removes 3; count bytes_put 19
    count leases_given 3; count fills_stored 2; count fills_stale 4
    count memory_objects_now 0; count log_objects_now 0
";

#[test]
fn each_status_comes_and_is_counted(rt: HostRuntime) -> Result<(), Fail> {
    play(rt.alloc(), EACH_STATUS)
}

static EACH_TIER: &[u8] = b"
    # Three objects are pushed out of memory, over the log to their set.
    open 3 1 1 1 1 2 1 8 1 1 65536 0 done
    put ax 1 done; put bx 7*2048 done; get ax 0 log 1; tend 0 0 0
    put cx 8*2048 done; put dx 4 done; put ex 5 done
    get ax 0 log 1; get dx 0 log 4; get ex 0 memory 5
    remove ax done; get ax 0 absent
    count memory_hits 1; count log_hits 3; count logged 4; count memory_objects_now 1
";

#[test]
fn what_leaves_memory_is_hit_in_the_log(rt: HostRuntime) -> Result<(), Fail> {
    play(rt.alloc(), EACH_TIER)
}

static COMES_BACK: &[u8] = b"
    # One object of the store in memory, and three copies: of two hits on flash the second has its object copied.
    open 3 1 1 1 4 2 1 8 1 1 65536 2 done
    put ax 1 9 done; put bx 2 done
    get ax 8 log 1; get ax 8 log 1; get ax 8 set 1; get ax 9 expired; get ax 8 set 1
    put ax 3 done; get ax 0 memory 3
    get bx 0 log 2; get bx 0 log 2; get bx 0 set 2; remove bx done; get bx 0 absent
    put cx 4 done; get ax 0 log 3; get ax 0 log 3
    lease 0 ax done; fill 0 ax 5 done; get ax 0 memory 5
    count copy_hits 3; count brought_back 3; count memory_hits 2; count log_hits 6; count set_hits 3
";

#[test]
fn what_is_hit_on_flash_comes_back_until_it_is_written(rt: HostRuntime) -> Result<(), Fail> {
    play(rt.alloc(), COMES_BACK)
}

static LOST_BELOW: &[u8] = b"
    # One object of the store in memory, and three copies: each hit on flash has its object copied. Two of the set's objects are copied.
    open 3 1 1 1 4 2 1 32 1 1 65536 1 done
    put ax A 9 done; put kkx AA 7 done; put bx 1 done; put cx 2 done; put dx 3 done; put ex 4 done
    put fx 5 done; put gx 6 done; put hx 7 done; put ix 8 done; put jx 9 done
    put yx 7*2048 done; put zx 8*2048 done; put wx 9*2048 done; put px 10 done
    tend 2 1 1; tend 2 0 0; get ax 8 set A; get kkx 6 set AA
    # Then the set forgets itself, with the ninth note that one of its objects is removed.
    remove bx done; remove cx done; remove dx done; remove ex done; remove fx done
    remove gx done; remove hx done; remove ix done; remove jx done
    get ax 8 set A; get kkx 6 set AA
    # Three objects of the log push the copies out.
    put qx 11 done; put rx 12 done; put sx 13 done; get px 0 log 10; get qx 0 log 11; get rx 0 log 12
    get ax 9 expired; get ax 8 log A; get kkx 7 expired; get kkx 6 log AA; get px 0 log 10
    count copy_hits 2; count brought_back 8; count pushed_copies 3; count logged 19
";

#[test]
fn a_copy_that_flash_has_lost_enters_the_log(rt: HostRuntime) -> Result<(), Fail> {
    play(rt.alloc(), LOST_BELOW)
}

static WRITTEN_SINCE: &[u8] = b"
    # Objects of the log are copied, one more than there is room for. The copies of those that are put or removed are gone.
    open 3 1 1 1 4 2 1 32 1 1 65536 1 done
    put ax 1 9 done; put bx 2 done; put cx 3 5 done; put dx 4 done
    get ax 8 log 1; get bx 0 log 2; remove ax done; put bx 55 3 done
    put ex 6 done; get cx 4 log 3; get dx 0 log 4; get bx 2 log 55; get ax 8 absent
    put fx 7 done; get ex 0 log 6; get cx 4 log 3
    count copy_hits 0; count brought_back 7; count pushed_copies 2; count logged 6
";

#[test]
fn a_copy_goes_where_flash_has_its_object_or_its_key_was_written(
    rt: HostRuntime,
) -> Result<(), Fail> {
    play(rt.alloc(), WRITTEN_SINCE)
}

static OPENINGS: &[u8] = b"
    open 3 1 1 1 1 2 1 8 1 1 65536 0 done
    open 2 1 1 1 1 2 1 8 1 1 65536 0 wrong options
    open 3 1 1 1 1 2 1 8 0 1 65536 0 wrong options
    open 3 1 1 1 1 2 1 8 1 1 65537 0 wrong options
";

#[test]
fn a_lane_opens_over_enough_pages_and_not_with_a_number_out_of_its_range(
    rt: HostRuntime,
) -> Result<(), Fail> {
    play(rt.alloc(), OPENINGS)
}
