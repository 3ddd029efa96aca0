//! Worlds in which events are played: the replies, the history and the certificate of each. A test is a text; `run.rt` says which
//! steps there are.
mod run;

pub(super) use self::run::play_text;
use std::test::Fail;

// A get that is done after the put that began before it.
static ACT_OF_A_PUT_FIRST: &[u8] = b"
    world 1 1 4
    begin put 0 a 1; begin get 1 a; act 0; act 1; end 1; end 0
    play bbpHee accepted
    count 2; call 0 by 0 1 6 a put 1; call 1 by 1 2 5 a hit 1 0; order 0 1
";

#[test]
fn a_get_done_behind_a_put_finds_its_value(rt: HostRuntime) -> Result<(), Fail> {
    play_text(&rt, rt.alloc(), ACT_OF_A_PUT_FIRST)
}

// The same, done before it; and a put too large for a page, which its refusal ends.
static ACT_OF_A_GET_FIRST: &[u8] = b"
    world 1 1 4
    begin put 0 a 1; begin get 1 a; act 1; act 0; end 1; end 0; put 0 ax v*225
    play bbmpeebt- accepted
    count 2; call 0 by 1 2 5 a miss; call 1 by 0 1 6 a put 1; order 0 1
";

#[test]
fn a_get_done_before_a_put_misses(rt: HostRuntime) -> Result<(), Fail> {
    play_text(&rt, rt.alloc(), ACT_OF_A_GET_FIRST)
}

// Two lanes; the second is done first.
static SECOND_LANE_FIRST: &[u8] = b"
    world 2 1 4
    begin put 0 a 1; begin put 1 b 2; act 1; act 0; end 0; end 1
    play bbppee accepted
    count 2; call 0 by 0 1 5 a put 1; call 1 by 1 2 6 b put 2; order 1 0
";

#[test]
fn calls_of_two_lanes_are_listed_as_they_were_done(rt: HostRuntime) -> Result<(), Fail> {
    play_text(&rt, rt.alloc(), SECOND_LANE_FIRST)
}

// A key is removed while its object is in flight, and the move does not bring it back.
static REMOVED_IN_FLIGHT: &[u8] = b"
    world 1 1 1
    put 0 ax 1; put 0 bx 2; flush 0; flush 0; move 0; begin remove 0 ax; act 0; commit 0 0 1; begin get 0 ax
    end 0; begin get 0 ax; act 0; move 3
    play bpebpeswjbrW-ebm- accepted
    count 4; call 0 by 0 1 3 ax put 1; call 1 by 0 4 6 bx put 2; call 2 by 0 7 9 ax remove
    call 3 by 0 10 12 ax miss; order 0 1 2 3
";

#[test]
fn a_key_that_is_removed_in_flight_does_not_come_back(rt: HostRuntime) -> Result<(), Fail> {
    play_text(&rt, rt.alloc(), REMOVED_IN_FLIGHT)
}

// Callers and ends that are not there, and plans that are stale or bad.
static STRANGERS: &[u8] = b"
    world 1 1 1
    begin get 3 ax; act 0; end 0; begin put 2 ax 1; act 2; act 2; end 2; end 2; begin put 2 bx 2; act 2; flush 0
    flush 0; commit 0 0 1; move 0; move 0; commit 0 1 1; abort 0 2; abort 0 1; begin get 1 ax
    play ---bp-e-bpswSjyBSAb accepted
    count 2; call 0 by 2 1 3 ax put 1; call 1 by 2 4 7 bx put 2; order 0 1
";

#[test]
fn strange_callers_and_plans_change_nothing(rt: HostRuntime) -> Result<(), Fail> {
    play_text(&rt, rt.alloc(), STRANGERS)
}

// Moves in flight in both lanes. A put strikes the item of the first, whose new value is found and not the moved one.
static BOTH_IN_FLIGHT: &[u8] = b"
    world 2 1 1
    put 0 a 1; put 0 c 2; put 1 b 3; put 1 d 4; flush 0; flush 1; flush 0; flush 1; move 0; move 1
    begin put 2 a 5; act 2; commit 1 0 1; commit 0 0 1; abort 1 1; end 2; get 0 b; get 1 a
    play bpebpebpebpesswwjjbpWWSebhebHe accepted
    count 7; call 0 by 0 1 3 a put 1; call 1 by 0 4 6 c put 2; call 2 by 2 13 15 a put 5
    call 3 by 1 19 21 a hit 5 0; call 4 by 1 7 9 b put 3; call 5 by 1 10 12 d put 4; call 6 by 0 16 18 b hit 3 0
    order 0 1 4 5 2 6 3
";

#[test]
fn moves_of_two_lanes_are_in_flight_at_once(rt: HostRuntime) -> Result<(), Fail> {
    play_text(&rt, rt.alloc(), BOTH_IN_FLIGHT)
}

// Two moves of one lane are in flight, and end in the other order. Then, while a move is in flight four segments are freed, and one
// with the name of the first is filled.
static OF_ONE_LANE: &[u8] = b"
    world 1 2 1
    put 0 ax 1; put 0 bx 2; put 0 cx 3; flush 0; flush 0; move 0; move 0; move 0; commit 0 0 2; commit 0 0 1
    get 0 ax; get 0 bx; move 0
    play bpebpebpeswjjyWWbhebhef accepted
    count 5; call 0 by 0 1 3 ax put 1; call 1 by 0 4 6 bx put 2; call 2 by 0 7 9 cx put 3
    call 3 by 0 10 12 ax hit 1 0; call 4 by 0 13 15 bx hit 2 0; order 0 1 2 3 4

    world 1 1 1
    put 0 a 1; put 0 bx 2; flush 0; flush 0; move 0; put 0 c 3; move 0; flush 0; flush 0; remove 0 bx; move 0
    put 0 dx 4; flush 0; flush 0; remove 0 c; move 0; put 0 ex 5; flush 0; flush 0; remove 0 dx; move 0
    put 0 fx 6; commit 0 0 1; get 0 ex; get 0 a
    play bpebpeswjbpefswbrefbpeswbrefbpeswbrefbpeWbHebhe accepted
    count 11; call 0 by 0 1 3 a put 1; call 1 by 0 4 6 bx put 2; call 2 by 0 7 9 c put 3
    call 3 by 0 10 12 bx remove; call 4 by 0 13 15 dx put 4; call 5 by 0 16 18 c remove
    call 6 by 0 19 21 ex put 5; call 7 by 0 22 24 dx remove; call 8 by 0 25 27 fx put 6
    call 9 by 0 28 30 ex hit 5 0; call 10 by 0 31 33 a hit 1 0; order 0 1 2 3 4 5 6 7 8 9 10
";

#[test]
fn moves_of_one_lane_are_in_flight_at_once(rt: HostRuntime) -> Result<(), Fail> {
    play_text(&rt, rt.alloc(), OF_ONE_LANE)
}
