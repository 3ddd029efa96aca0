//! What goes on side by side: each thread waits until the other one was answered, so a lock that is held too long or is
//! one for all lets the wait run out.
use super::played::{Beside, play};
use std::test::Fail;

// A key of lane 0 is in the log on the device, and its read waits until calls of lane 1 were answered.
static HELD_READS: &[u8] = b"
    hold-reads; config 2 1 1 2 1 8 1 65536
    put ax 1 0 nobody; put cx 2 0 logged; flush sealed; flush wrote
    at-the-gate
";

static HELD_READS_LEFT: &[u8] = b"ended finished; calls 5; verdict accepted";

static READ: Beside<'static> = Beside {
    first: b"get ax log 1",
    second: b"put bx 3 0 nobody; get bx memory 3",
};

#[test]
fn a_lane_reads_while_another_one_answers(rt: HostRuntime) -> Result<(), Fail> {
    play(&rt, rt.alloc(), HELD_READS, READ, HELD_READS_LEFT)
}

// A plan of lane 0 waits until calls of that lane were answered by memory.
static HELD_PLANS: &[u8] = b"
    hold-plans; config 2 1 1 2 1 8 1 65536
    put ax 1 0 nobody; put cx 2 0 logged; flush sealed; flush wrote
    at-the-gate
";

static HELD_PLANS_LEFT: &[u8] = b"ended finished; calls 5; verdict accepted";

static MOVE: Beside<'static> = Beside {
    first: b"move written; get ax set 1",
    second: b"get cx memory 2; remove gx",
};

#[test]
fn a_plan_is_made_while_its_lane_answers(rt: HostRuntime) -> Result<(), Fail> {
    play(&rt, rt.alloc(), HELD_PLANS, MOVE, HELD_PLANS_LEFT)
}
