//! What the rounds do.
use super::played::{ALONE, play};
use std::test::Fail;

// A value that has expired is replaced. An older value of a key moves to its page first, then the newer one takes its place there.
static TO_ITS_PAGE: &[u8] = b"
    config 1 1 1 2 1 8 1 65536
    put-until ax v 0 5 nobody; get ax expired
    put ax 1 0 nobody; put bx 2 0 logged; flush sealed; flush wrote
    move written
    put ax 3 0 logged; put cx 4 0 logged; flush sealed; flush wrote
    move freed; move written
    get ax set 3
    finish 0 2
";

static TO_ITS_PAGE_LEFT: &[u8] = b"ended finished; calls 7; verdict accepted";

#[test]
fn the_rounds_bring_a_value_to_its_page(rt: HostRuntime) -> Result<(), Fail> {
    play(&rt, rt.alloc(), TO_ITS_PAGE, ALONE, TO_ITS_PAGE_LEFT)
}

// One lane whose log takes half of the pairs that leave memory. The word of a put decides of the pair that leaves: its low 16 bits lie
// below 32,768, or do not.
static LEAVING: &[u8] = b"
    config 1 1 1 2 1 8 1 32768
    put ax v 65535 nobody; put bx v 65535 declined; put cx v 0 logged; put dx v 32768 declined; put ex v 32767 logged
    put fx v 4294934528 declined; put gx v 4294901760 logged
    get bx log v; get ax absent
    finish 0 2
";

static LEAVING_LEFT: &[u8] = b"ended finished; calls 9; verdict accepted";

#[test]
fn the_word_of_a_put_decides_of_what_leaves_memory(rt: HostRuntime) -> Result<(), Fail> {
    play(&rt, rt.alloc(), LEAVING, ALONE, LEAVING_LEFT)
}

// If a plan is refused the move is given up: the set's objects move in the round after it.
static GIVEN_UP: &[u8] = b"
    refuse 2; config 1 1 1 2 1 8 1 65536
    put ax 1 0 nobody; put bx 2 0 logged; flush sealed; flush wrote
    move-once refused; move-once refused; move written
    get ax set 1
    finish 0 2
";

static GIVEN_UP_LEFT: &[u8] = b"ended finished; calls 3; verdict accepted";

#[test]
fn a_move_whose_plan_is_refused_is_given_up(rt: HostRuntime) -> Result<(), Fail> {
    play(&rt, rt.alloc(), GIVEN_UP, ALONE, GIVEN_UP_LEFT)
}
