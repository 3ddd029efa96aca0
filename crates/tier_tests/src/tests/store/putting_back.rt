//! A copy that memory has no room for enters the log if no tier on flash may show its key.
use super::*;

// No call of the device is made.
static LOGGED: &[u8] = b"
    # What the log has is dropped, and what it has not enters, with its value and when that expires.
    config 1 1 1 2 1 8 1 65536
    put ax 1 0 nobody; put bx 2 0 logged
    put-back ax 1 known
    get-into ax log 1
    remove ax
    put-back ax 33 logged
    get-into ax log 33; get-into-late ax expired
    put-back ax 33 known; put-back cx 4 logged
    get-into cx log 4; get-into bx memory 2
    asked none

    # A neighbour of one tag is taken for the key, and its copy is lost.
    config 1 1 1 2 1 8 1 65536
    put a 1 0 nobody; put cx 2 0 logged
    put-back b 3 known
    get-into b absent; get-into a log 1
    asked none

    # With two sets that neighbour belongs to the other one.
    config 1 2 1 2 1 8 1 65536
    put a 1 0 nobody; put cx 2 0 logged
    put-back b 3 logged
    get-into b log 3; get-into a log 1
    asked none

    # None is admitted at a put, and a copy enters.
    config 1 1 1 2 1 8 1 0
    put ax 1 0 nobody; put bx 2 0 declined
    put-back ax 1 logged
    get-into ax log 1
    asked none
";

#[test]
fn a_copy_that_the_log_has_is_dropped(rt: HostRuntime) -> Result<(), Fail> {
    play(rt.alloc(), LOGGED)
}

static FILTERED: &[u8] = b"
    # The key `ax` is written to its set, and its segment is freed.
    config 1 1 1 2 1 8 1 65536
    put ax 1 0 nobody; put bx 2 0 logged; flush sealed; flush wrote
    move written; move freed
    # What the set's filter admits is dropped until it is struck.
    put-back ax 1 known
    get-into ax set 1
    put-back cx 3 logged
    get-into cx log 3
    remove ax
    put-back ax 4 logged
    get-into ax log 4; get-into-late ax expired

    # The key `ax` is written to its set, and its segment is freed.
    config 1 2 1 2 1 8 1 65536
    put ax 1 0 nobody; put bx 2 0 logged; flush sealed; flush wrote
    move written; move freed
    # What the set's filter admits is dropped until it is struck.
    put-back ax 1 known
    get-into ax set 1
    put-back cx 3 logged
    get-into cx log 3
    remove ax
    put-back ax 4 logged
    get-into ax log 4; get-into-late ax expired

    # The key `ax` is written to its set, and its segment is freed.
    config 1 1 1 2 1 8 1 65536
    put ax 1 0 nobody; put bx 2 0 logged; flush sealed; flush wrote
    move written; move freed
    # The set's page is written anew with `bx` alone.
    put cx 3 0 logged; flush sealed; flush wrote
    put-back bx 2 known
    begin-many 2 2
    commit 2 1 written
    get-into ax absent
    put-back bx 2 known; put-back ax 1 logged
    get-into ax log 1

    config 1 1 1 2 1 16 1 65536
    put ax 1 0 nobody; put bx 1 0 logged; put cx 1 0 logged; put dx 1 0 logged; put ex 1 0 logged
    put fx 1 0 logged; put gx 1 0 logged; put hx 1 0 logged; put ix 1 0 logged; put jx 1 0 logged
    put kx 1 0 logged; flush sealed; flush wrote
    move written
    # The ninth strike forgets the set, so it may show none of its keys.
    remove ax; remove bx; remove cx; remove dx; remove ex; remove fx; remove gx; remove hx
    put-back jx 1 known
    remove ix
    get-into jx absent
    put-back jx 1 logged
    get-into jx log 1
";

#[test]
fn a_copy_that_its_set_may_have_is_dropped(rt: HostRuntime) -> Result<(), Fail> {
    play(rt.alloc(), FILTERED)
}

static LOST: &[u8] = b"
    # The log's two buffers have a page each, and a page has room for one of these objects.
    config 1 1 1 2 1 8 1 65536
    put ax v*200 0 nobody; put bx v*200 0 logged; put cx v*200 0 logged
    put-back dx v*200 full
    get-into dx absent; get-into bx log v*200

    config 1 1 1 2 1 1 1 65536
    put ax 1 0 nobody; put bx 2 0 logged
    put-back cx 3 index full
    get-into cx absent
    put-back ax 1 known

    config 1 1 1 2 1 8 1 65536
    put-back a w*226 too large; put-back a v*225 logged
    get-into a log v*225
    put-back a w*226 known
";

#[test]
fn a_copy_that_finds_no_place_is_lost(rt: HostRuntime) -> Result<(), Fail> {
    play(rt.alloc(), LOST)
}
