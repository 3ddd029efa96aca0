//! Each lane has the device of its number, its rounds are its own, and the devices come back in their order.
use super::played::{ALONE, play};
use std::test::Fail;

// The first value goes to the log, to the log's device page and to the page of its set. Of the other lane no page is written.
static APART: &[u8] = b"
    lane 0; config 2 1 1 2 1 8 1 65536
    put ax v 0 nobody; put cx v 0 logged; flush sealed; flush wrote; move written
    finish 0 2

    lane 1; config 2 1 1 2 1 8 1 65536
    put bx v 0 nobody; put dx v 0 logged; flush sealed; flush wrote; move written
    finish 0 2
";

static APART_LEFT: &[u8] = b"
    ended finished; device 0 0 1 1; device 1 1 0 0; device 2 none
    ended finished; device 0 0 0 0; device 1 1 1 1; device 2 none
";

#[test]
fn a_lane_has_its_own_device_and_rounds(rt: HostRuntime) -> Result<(), Fail> {
    play(&rt, rt.alloc(), APART, ALONE, APART_LEFT)
}
