//! Moves that begin in one call and end in another.
use super::*;

static STRUCK: &[u8] = b"
    # The object of a move is put anew before its plan comes.
    config 1 1 1 2 1 8 1 32768
    put ax 1 0 nobody; put bx 2 0 logged; flush sealed; flush wrote
    begin 1 0 238 15 6 fresh
    put ax 2 65535 declined
    commit 2 0 stale plan; commit 1 1 bad plan; commit 1 0 0 bad plan; commit 1 0 written
    put cx 3 65535 declined
    get ax absent
    abort 1 stale plan

    # One of the two objects of a move is removed before its plan comes.
    config 1 1 1 2 1 8 1 65536
    put ax 1 0 nobody; put bx 2 0 logged; flush sealed; flush wrote; put cx 3 0 logged
    begin 1 0 238 15 6 fresh 15 6 fresh
    remove ax
    commit 1 0 1 written
    get bx set 2; get ax absent

    # Of four objects one is put anew, one removed, one forgotten.
    config 1 1 1 2 1 8 1 65536
    put ax 1 0 nobody; put bx 2 0 logged; put cx 3 0 logged; put dx 4 0 logged; put ex 5 0 logged
    flush sealed; flush wrote
    begin 1 0 238 15 6 fresh 15 6 fresh 15 6 fresh 15 6 fresh
    put ax 9 0 logged
    remove bx; forget cx
    commit 1 3 2 1 0 written
    get ax memory 9; get bx absent; get cx absent; get dx set 4
";

#[test]
fn what_is_struck_before_its_plan_comes_is_not_written(rt: HostRuntime) -> Result<(), Fail> {
    play(rt.alloc(), STRUCK)
}

static ONE_TAG: &[u8] = b"
    # A neighbour of one tag takes the record out of the log, and not the item out of the move.
    config 1 1 1 2 1 8 1 65536
    put ax 1 0 nobody; put a 2 0 logged; put bx 3 0 logged; flush sealed; flush wrote
    begin 1 0 238 14 6 fresh 15 6 fresh
    put b 4 0 logged
    get a absent
    commit 1 0 1 written
    get a set 2; get ax set 1

    # The keys have one tag, and `b` belongs to the other set.
    config 1 2 1 2 1 8 1 65536
    put a 1 0 nobody; put ax 2 0 logged; flush sealed; flush wrote
    begin 1 0 238 14 6 fresh
    put b 3 0 logged
    get a log 1
    commit 1 0 written
    get a set 1
";

#[test]
fn a_key_of_the_same_tag_leaves_the_item(rt: HostRuntime) -> Result<(), Fail> {
    play(rt.alloc(), ONE_TAG)
}

static FORGOTTEN: &[u8] = b"
    config 1 1 1 2 1 16 1 65536
    put ax 1 0 nobody; put bx 1 0 logged; put cx 1 0 logged; put dx 1 0 logged; put ex 1 0 logged
    put fx 1 0 logged; put gx 1 0 logged; put hx 1 0 logged; put ix 1 0 logged; put jx 1 0 logged
    put kx 1 0 logged; flush sealed; flush wrote
    move written
    # Ten objects are in the set, and one more is to join them.
    put lx 1 0 logged; flush sealed; flush wrote
    begin freed; begin-many 2 11
    # Nine of them are removed, which forgets the set, and the two others are written again.
    remove ax; remove bx; remove cx; remove dx; remove ex; remove fx; remove gx; remove hx
    get jx set 1
    remove ix
    get jx absent
    commit 2 0 1 2 3 4 5 6 7 8 9 10 written
    get ax absent; get hx absent; get ix absent; get jx set 1; get kx set 1
";

#[test]
fn a_forgotten_set_is_written_again(rt: HostRuntime) -> Result<(), Fail> {
    play(rt.alloc(), FORGOTTEN)
}

static REFUSED: &[u8] = b"
    # The page with one of the objects is lost before the plan comes: it is the third call of the device that fails.
    refuse 3; config 1 1 1 2 1 8 1 65536
    put ax 1 0 nobody; put bx 2 0 logged; flush sealed; flush wrote; put cx 3 0 logged; flush sealed
    begin 1 0 238 15 6 fresh 15 6 fresh
    flush page lost
    get bx absent
    commit 1 0 1 written
    get bx set 2; get ax set 1

    # The set's page is not written, first for one object and then for two.
    refuse 3; config 1 1 1 2 1 8 1 65536
    put ax 1 0 nobody; put bx 2 0 logged; flush sealed; flush wrote
    begin 1 0 238 15 6 fresh
    commit 1 0 forgotten
    get ax absent
    put cx 3 0 logged; flush sealed; flush wrote
    begin freed; begin 2 0 238 15 6 fresh
    commit 2 0 written

    refuse 8; config 1 1 1 2 1 8 1 65536
    put ax 1 0 nobody; put bx 2 0 logged; flush sealed; flush wrote
    begin 1 0 238 15 6 fresh
    commit 1 0 written
    get ax set 1
    put cx 3 0 logged; flush sealed; flush wrote
    begin freed; begin-many 2 2
    commit 2 0 1 forgotten
    get bx absent; get ax absent
";

#[test]
fn a_refused_call_between_loses_what_it_must(rt: HostRuntime) -> Result<(), Fail> {
    play(rt.alloc(), REFUSED)
}

static NUMBERED: &[u8] = b"
    # A move that is given up leaves its records where they were; its number is never good again.
    config 1 1 1 2 1 8 1 65536
    commit 0 stale plan
    abort 0 stale plan
    begin nothing
    put ax 1 0 nobody; put bx 2 0 logged; flush sealed; flush wrote
    begin 1 0 238 15 6 fresh; begin busy
    move busy
    abort 1 aborted
    commit 1 0 stale plan
    abort 1 stale plan
    get ax log 1
    begin 2 0 238 15 5 fresh
    commit 1 0 stale plan
    abort 1 stale plan
    # A plan that keeps nothing drops what was taken.
    commit 2 written
    get ax absent
    begin freed
";

#[test]
fn a_number_is_good_once(rt: HostRuntime) -> Result<(), Fail> {
    play(rt.alloc(), NUMBERED)
}

// Two of these objects fit on a page; an item that was struck counts.
static FITTING: &[u8] = b"
    config 1 1 1 2 1 8 1 65536
    put ax v*100 0 nobody; put bx v*100 0 logged; put cx v*100 0 logged; flush sealed; flush wrote
    put dx v*100 0 logged
    begin 1 0 238 114 6 fresh 114 6 fresh 114 6 fresh
    commit 1 0 1 2 bad plan
    remove ax
    commit 1 0 1 2 bad plan; commit 1 0 1 written
    get cx set v*100; get bx set v*100
";

#[test]
fn a_plan_has_to_fit_on_a_page(rt: HostRuntime) -> Result<(), Fail> {
    play(rt.alloc(), FITTING)
}
