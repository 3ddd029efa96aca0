//! Callers in threads of their own.
use super::played::{ALONE, Beside, play};
use std::test::Fail;

static EACH_ITS_OWN: Beside<'static> = Beside {
    first: b"put tx 1 0 nobody; get tx memory 1; remove tx; get tx absent",
    second: b"put ux 2 0 nobody; get ux memory 2; remove ux; get ux absent",
};

static SIDE_BY_SIDE: &[u8] = b"
    config 1 1 64 2 1 8 1 65536
    side-by-side
";

static SIDE_BY_SIDE_LEFT: &[u8] = b"ended finished; calls 8; verdict accepted";

#[test]
fn two_threads_each_find_their_own(rt: HostRuntime) -> Result<(), Fail> {
    play(
        &rt,
        rt.alloc(),
        SIDE_BY_SIDE,
        EACH_ITS_OWN,
        SIDE_BY_SIDE_LEFT,
    )
}

// The first key is of lane 1, the other of lane 0, so that nothing but the clock is between them.
static ONE_BY_ONE: &[u8] = b"
    config 2 1 1 2 1 8 1 65536
    one-by-one
";

static ONE_BY_ONE_LEFT: &[u8] = b"ended finished; calls 8; turns in turn";

#[test]
fn a_later_thread_starts_above_the_ends_of_a_joined_one(rt: HostRuntime) -> Result<(), Fail> {
    play(&rt, rt.alloc(), ONE_BY_ONE, EACH_ITS_OWN, ONE_BY_ONE_LEFT)
}

// The pass is told of the last stamp but one.
static FULL: &[u8] = b"
    config 1 1 64 2 1 8 1 65536
    put tx 1 0 nobody; meet 9223372036854775806
    listed 1; get tx clock full; listed 1; get tx clock full; listed 1
    finish 0 2
";

static FULL_LEFT: &[u8] = b"ended finished; calls 1; verdict accepted";

#[test]
fn a_full_clock_refuses_calls_and_records_none(rt: HostRuntime) -> Result<(), Fail> {
    play(&rt, rt.alloc(), FULL, ALONE, FULL_LEFT)
}
