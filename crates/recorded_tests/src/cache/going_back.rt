//! A device that goes back on a set's page to one that was true before: no call can tell, and the certificate catches it.
use super::played::{ALONE, play};
use std::test::Fail;

// The set's page goes stale when it is written for the second time: the second put of a key moves to it, and it still gives the first.
static GOES_BACK: &[u8] = b"
    stale 2; config 1 1 1 2 1 8 1 65536
    put ax 1 0 nobody; put bx 2 0 logged; flush sealed; flush wrote
    move written
    put ax 3 0 logged; put cx 4 0 logged; flush sealed; flush wrote
    move freed; move written
    get ax set 1
    finish 0 2
";

static GOES_BACK_LEFT: &[u8] = b"ended finished; verdict wrong hit 4";

#[test]
fn a_hit_of_a_replaced_value_is_rejected(rt: HostRuntime) -> Result<(), Fail> {
    play(&rt, rt.alloc(), GOES_BACK, ALONE, GOES_BACK_LEFT)
}
