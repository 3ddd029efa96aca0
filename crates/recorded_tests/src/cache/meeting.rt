//! Moves of one lane that are in flight at once: two threads make their plans side by side, each for a set of its own.
use super::played::{Beside, play};
use std::test::Fail;

// One lane of two sets: `ax` and `cx` are of set 0, `bx` of set 1. The plans of two threads wait for each other.
static MEETING: &[u8] = b"
    together 2; config 1 2 1 2 1 8 1 65536
    put ax 1 0 nobody; put bx 2 0 logged; put cx 3 0 logged; flush sealed; flush wrote
    side-by-side
";

static MEETING_LEFT: &[u8] = b"ended finished; calls 3; verdict accepted";

static MOVES: Beside<'static> = Beside {
    first: b"move written",
    second: b"move written",
};

#[test]
fn two_plans_of_a_lane_are_made_at_once(rt: HostRuntime) -> Result<(), Fail> {
    play(&rt, rt.alloc(), MEETING, MOVES, MEETING_LEFT)
}
