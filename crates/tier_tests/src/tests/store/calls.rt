//! Which calls a store makes of a device that is not honest: a get asks for no page after one that was damaged or not
//! read, and a move for each page once.
use super::*;

// Neither the log's page nor, if it fails, the set's is asked for again.
static ENDED: &[u8] = b"
    # Of two keys of one tag `a` is visible in the set and `b` on the log's second page, where a look-up of `a` begins. Once
    # `b` is removed, the value of `a` is found where it was all the time.
    stale 2 1; config 1 1 1 2 1 8 1 65536
    put a 1 0 nobody; put b 2 0 logged; flush sealed; flush wrote
    move written; move freed
    put cx 3 0 logged; flush sealed; flush wrote
    get a damaged; get-into b damaged
    remove b
    get a set 1
    asked write 1 read 1 write 0 write 2 read 2 read 2 read 0

    refuse 5; config 1 1 1 2 1 8 1 65536
    put a 1 0 nobody; put b 2 0 logged; flush sealed; flush wrote
    move written; move freed
    put cx 3 0 logged; flush sealed; flush wrote
    get a fault
    remove b
    get a set 1
    asked write 1 read 1 write 0 write 2 read 2 read 0

    # The same by gets into a buffer.
    refuse 5; config 1 1 1 2 1 8 1 65536
    put a 1 0 nobody; put b 2 0 logged; flush sealed; flush wrote
    move written; move freed
    put cx 3 0 logged; flush sealed; flush wrote
    get-into a fault
    remove-bytes b
    get-into a set 1
    asked write 1 read 1 write 0 write 2 read 2 read 0
";

#[test]
fn a_get_ends_at_a_page_that_it_does_not_have(rt: HostRuntime) -> Result<(), Fail> {
    play(rt.alloc(), ENDED)
}

static READ_ONCE: &[u8] = b"
    # Objects in memory and in both of the log's buffers.
    config 1 1 1 2 1 8 1 65536
    put ax 1 0 nobody; put bx 2 0 logged; flush sealed; put cx 3 0 logged
    get cx memory 3; get bx log 2; get ax log 1; get dx absent
    asked none

    # The log has another object, on a page of its own, and none of the tag of `ax`.
    config 1 1 1 2 1 8 1 65536
    put ax 1 0 nobody; put bx 2 0 logged; flush sealed; flush wrote
    move written
    put cx 3 0 logged; flush sealed; flush wrote
    get ax set 1; get dx absent
    asked write 1 read 1 write 0 write 2 read 0
";

#[test]
fn a_get_reads_one_page_or_none(rt: HostRuntime) -> Result<(), Fail> {
    play(rt.alloc(), READ_ONCE)
}

// The set's page and each of the log's have one object.
// The log's pages are read newest first, then the set's; the calls after the beginning ask for none.
static GATHERED: &[u8] = b"
    config 1 1 1 2 1 8 1 65536
    put ax 1 0 nobody; put bx 2 0 logged; flush sealed; flush wrote
    move written; move freed
    put cx 3 0 logged; flush sealed; flush wrote; put dx 4 0 logged; flush sealed; flush wrote
    begin-many 2 3
    put bx 7 0 logged
    remove cx
    abort 1 stale plan; abort 2 aborted
    asked write 1 read 1 write 0 write 2 write 1 read 1 read 2 read 0
";

#[test]
fn a_move_reads_each_page_once(rt: HostRuntime) -> Result<(), Fail> {
    play(rt.alloc(), GATHERED)
}
