//! When a cache is not finished: a pass is missing, or the passes do not list just the calls that were recorded.
use super::played::{ALONE, play};
use std::test::Fail;

// Passes 0 and 1 are of the first and second caller of the cache that is finished, and 2 and 3 of another one's. The second callers
// made no call. Of two lanes the key `ax` is of lane 0, and `bx` of lane 1.
static PASSES: &[u8] = b"
    config 2 1 1 2 1 8 1 65536; keep
    config 2 1 1 2 1 8 1 65536; put ax 1 0 nobody; put bx 2 0 nobody; finish 0 2

    # A pass is missing.
    config 2 1 1 2 1 8 1 65536; keep
    config 2 1 1 2 1 8 1 65536; finish 1 2
    config 2 1 1 2 1 8 1 65536; keep
    config 2 1 1 2 1 8 1 65536; finish 0 1

    # The very same calls.
    config 2 1 1 2 1 8 1 65536; put ax 1 0 nobody; put bx 2 0 nobody; keep
    config 2 1 1 2 1 8 1 65536; put ax 1 0 nobody; put bx 2 0 nobody; finish 2 4

    # Another value.
    config 2 1 1 2 1 8 1 65536; put ax 2 0 nobody; keep
    config 2 1 1 2 1 8 1 65536; put ax 1 0 nobody; finish 2 4

    # A call past the last one.
    config 2 1 1 2 1 8 1 65536; put ax 1 0 nobody; get ax memory 1; keep
    config 2 1 1 2 1 8 1 65536; put ax 1 0 nobody; finish 2 4

    # A call of each lane: the first by its place, not by its lane.
    config 2 1 1 2 1 8 1 65536; put bx 9 0 nobody; put ax 9 0 nobody; keep
    config 2 1 1 2 1 8 1 65536; put ax 1 0 nobody; put bx 2 0 nobody; finish 2 4

    # In the lane before it a call is not listed, which is told later.
    config 2 1 1 2 1 8 1 65536; put bx 9 0 nobody; keep
    config 2 1 1 2 1 8 1 65536; put ax 1 0 nobody; put bx 2 0 nobody; finish 2 4

    # A call that is listed twice.
    config 2 1 1 2 1 8 1 65536; put ax 1 0 nobody; keep
    config 2 1 1 2 1 8 1 65536; put ax 1 0 nobody; finish 0 3

    # A call that no pass lists.
    config 2 1 1 2 1 8 1 65536; keep
    config 2 1 1 2 1 8 1 65536; put ax 1 0 nobody; finish 2 4
    config 2 1 1 2 1 8 1 65536; put ax 1 0 nobody; keep
    config 2 1 1 2 1 8 1 65536; put ax 1 0 nobody; get ax memory 1; finish 2 4
    config 2 1 1 2 1 8 1 65536; put ax 1 0 nobody; keep
    config 2 1 1 2 1 8 1 65536; put ax 1 0 nobody; put bx 2 0 nobody; finish 2 4

    # A call of a lane that the cache has not: of four lanes the key is of the last.
    config 4 1 1 2 1 8 1 65536; put bx 2 0 nobody; keep
    config 2 1 1 2 1 8 1 65536; put bx 2 0 nobody; finish 2 4
";

static PASSES_LEFT: &[u8] = b"
    ended finished
    ended missing 0
    ended missing 1
    ended finished
    ended strange 0 0
    ended strange 0 1
    ended strange 0 0
    ended strange 0 0
    ended strange 0 0
    ended unlisted 0 0
    ended unlisted 0 1
    ended unlisted 1 0
    ended strange 0 0
";

#[test]
fn the_passes_list_just_the_recorded_calls(rt: HostRuntime) -> Result<(), Fail> {
    play(&rt, rt.alloc(), PASSES, ALONE, PASSES_LEFT)
}
