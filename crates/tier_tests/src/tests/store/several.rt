//! Several moves in flight at once, of different sets.
use super::*;

// Two moves end in the other order.
static ENDED: &[u8] = b"
    config 1 2 1 2 1 8 1 65536
    put ax 1 0 nobody; put bx 2 0 logged; put cx 3 0 logged; flush sealed; flush wrote
    begin 1 0 238 15 6 fresh; begin 2 1 238 15 6 fresh; begin busy
    commit 2 0 written; commit 1 0 written
    get ax set 1; get bx set 2
    begin freed
";

#[test]
fn two_moves_end_in_either_order(rt: HostRuntime) -> Result<(), Fail> {
    play(rt.alloc(), ENDED)
}

// While a move is in flight four segments are freed, and one with the name of the first is filled. What the commit drops is
// not what lies at the taken record's place now.
static NAMED_AGAIN: &[u8] = b"
    config 1 1 1 2 1 8 1 65536
    put a 1 0 nobody; put bx 2 0 logged; flush sealed; flush wrote
    begin 1 0 238 14 6 fresh
    put c 3 0 logged
    begin freed
    flush sealed; flush wrote
    remove bx
    begin freed
    put dx 4 0 logged; flush sealed; flush wrote
    remove c
    begin freed
    put ex 5 0 logged; flush sealed; flush wrote
    remove dx
    begin freed
    put fx 6 0 logged
    commit 1 0 written
    get ex log 5; get a set 1; get fx memory 6
    abort 1 stale plan
    commit 1 0 stale plan
    begin nothing
";

#[test]
fn a_commit_drops_what_was_taken_and_not_what_lies_there_now(rt: HostRuntime) -> Result<(), Fail> {
    play(rt.alloc(), NAMED_AGAIN)
}

static EIGHT: &[u8] = b"
    # The oldest segment has objects of nine sets.
    config 1 16 1 2 1 16 1 65536
    put ax 1 0 nobody; put bx 2 0 logged; put cx 3 0 logged; put dx 4 0 logged; put ex 5 0 logged
    put fx 6 0 logged; put gx 7 0 logged; put hx 8 0 logged; put ix 9 0 logged; put jx 0 0 logged
    flush sealed; flush wrote
    # Eight moves are in flight, and no ninth begins until one of them ends.
    begin 1 12 238 15 6 fresh; begin 2 7 238 15 6 fresh; begin 3 14 238 15 6 fresh
    begin 4 1 238 15 6 fresh; begin 5 8 238 15 6 fresh; begin 6 3 238 15 6 fresh
    begin 7 10 238 15 6 fresh; begin 8 13 238 15 6 fresh; begin busy
    move busy
    commit 3 0 written
    begin 9 4 238 15 6 fresh; begin busy
    abort 9 aborted
    move written
    begin busy
    commit 8 0 written; commit 1 0 written; commit 2 0 written; commit 3 0 stale plan
    commit 9 0 stale plan; commit 10 0 stale plan; commit 5 0 written; commit 4 0 written
    commit 7 0 written; commit 6 0 written
    begin freed
    get ax set 1; get cx set 3; get dx set 4; get gx set 7; get hx set 8; get ix set 9
    get jx memory 0
";

#[test]
fn no_more_than_eight_moves_are_in_flight(rt: HostRuntime) -> Result<(), Fail> {
    play(rt.alloc(), EIGHT)
}

// Of three moves the second is given up, and its set begins anew with the next number.
static ABORTED: &[u8] = b"
    config 1 16 1 2 1 16 1 65536
    put ax 1 0 nobody; put bx 2 0 logged; put cx 3 0 logged; put dx 4 0 logged; flush sealed
    flush wrote
    begin 1 12 238 15 6 fresh; begin 2 7 238 15 6 fresh; begin 3 14 238 15 6 fresh; begin busy
    abort 2 aborted
    commit 2 0 stale plan; commit 3 0 written
    get bx log 2
    begin 4 7 238 15 5 fresh
    commit 1 0 written
    begin busy
    commit 4 0 written
    get ax set 1; get bx set 2; get cx set 3
    begin freed
";

#[test]
fn an_abort_ends_its_move_alone(rt: HostRuntime) -> Result<(), Fail> {
    play(rt.alloc(), ABORTED)
}

// The first move has a plan that does not fit, and stays where it was.
static BAD: &[u8] = b"
    config 1 2 1 2 1 8 1 65536
    put ax 1 0 nobody; put bx 2 0 logged; put cx 3 0 logged; flush sealed; flush wrote
    begin 1 0 238 15 6 fresh; begin 2 1 238 15 6 fresh
    commit 1 1 bad plan; commit 3 0 stale plan
    begin busy
    commit 2 0 written; commit 1 0 0 bad plan
    get bx set 2
    begin busy
    commit 1 0 written
    get ax set 1
    begin freed
";

#[test]
fn a_bad_plan_leaves_its_move_in_flight(rt: HostRuntime) -> Result<(), Fail> {
    play(rt.alloc(), BAD)
}

// While two moves are in flight, of each one object is struck.
static STRUCK: &[u8] = b"
    config 1 2 1 2 1 8 1 65536
    put ax 1 0 nobody; put bx 2 0 logged; put cx 3 0 logged; put dx 4 0 logged; put fx 5 0 logged
    flush sealed; flush wrote
    begin 1 0 238 15 6 fresh 15 6 fresh; begin 2 1 238 15 6 fresh 15 6 fresh
    put ax 9 0 logged
    remove dx
    commit 2 0 1 written
    get dx absent; get bx set 2
    forget ax
    commit 1 0 1 written
    get ax absent; get cx set 3; get fx log 5
    begin freed
";

#[test]
fn what_is_struck_is_written_by_no_move(rt: HostRuntime) -> Result<(), Fail> {
    play(rt.alloc(), STRUCK)
}

// No move begins with an object of a younger segment, while the oldest has one.
static OLDEST: &[u8] = b"
    config 1 2 1 2 1 8 1 65536
    put ax 1 0 nobody; put bx 2 0 logged; flush sealed; flush wrote
    begin 1 0 238 15 6 fresh
    put cx 3 0 logged; flush sealed; flush wrote
    begin busy
    move busy
    commit 1 0 written
    begin freed; begin 2 1 238 15 6 fresh
    commit 2 0 written
    get bx set 2; get ax set 1
";

#[test]
fn moves_begin_in_the_oldest_segment_alone(rt: HostRuntime) -> Result<(), Fail> {
    play(rt.alloc(), OLDEST)
}

// Whole moves go on beside one that is in flight, of other sets.
static BESIDE: &[u8] = b"
    config 1 2 1 2 1 8 1 65536
    put ax 1 0 nobody; put bx 2 0 logged; put cx 3 0 logged; flush sealed; flush wrote
    begin 1 0 238 15 6 fresh
    move written
    get bx set 2
    move busy
    abort 2 stale plan; abort 1 aborted
    move written
    get ax set 1
    begin freed
";

#[test]
fn a_whole_move_goes_on_beside_another(rt: HostRuntime) -> Result<(), Fail> {
    play(rt.alloc(), BESIDE)
}
