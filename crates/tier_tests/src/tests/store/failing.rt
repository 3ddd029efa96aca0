//! Each call of the device refused in turn, and pages that are not what was written.
use super::*;

// Two objects are moved one after the other. The calls of the device: a write of the log's page; a read of it and a write of the
// set's; a look-up there; the same again, with a read of the set's page first; and two look-ups. In the last row none is refused.
static REFUSALS: &[u8] = b"
    refuse 1; config 1 1 1 2 1 8 1 65536
    put ax 1 0 nobody; put bx 2 0 logged; flush sealed; flush page lost
    move freed
    get ax absent
    put cx 3 0 logged; flush sealed; flush wrote
    move written; move freed
    get bx set 2; get ax absent

    refuse 2; config 1 1 1 2 1 8 1 65536
    put ax 1 0 nobody; put bx 2 0 logged; flush sealed; flush wrote
    move page lost
    get ax absent
    put cx 3 0 logged; flush sealed; flush wrote
    move freed; move written
    get bx set 2; get ax absent

    refuse 3; config 1 1 1 2 1 8 1 65536
    put ax 1 0 nobody; put bx 2 0 logged; flush sealed; flush wrote
    move forgotten
    get ax absent
    put cx 3 0 logged; flush sealed; flush wrote
    move freed; move written
    get bx set 2; get ax absent

    refuse 4; config 1 1 1 2 1 8 1 65536
    put ax 1 0 nobody; put bx 2 0 logged; flush sealed; flush wrote
    move written
    get ax fault
    put cx 3 0 logged; flush sealed; flush wrote
    move freed; move written
    get bx set 2; get ax set 1

    refuse 5; config 1 1 1 2 1 8 1 65536
    put ax 1 0 nobody; put bx 2 0 logged; flush sealed; flush wrote
    move written
    get ax set 1
    put cx 3 0 logged; flush sealed; flush page lost
    move freed; move freed
    get bx absent; get ax set 1

    refuse 6; config 1 1 1 2 1 8 1 65536
    put ax 1 0 nobody; put bx 2 0 logged; flush sealed; flush wrote
    move written
    get ax set 1
    put cx 3 0 logged; flush sealed; flush wrote
    move freed; move page lost
    get bx absent; get ax set 1

    refuse 7; config 1 1 1 2 1 8 1 65536
    put ax 1 0 nobody; put bx 2 0 logged; flush sealed; flush wrote
    move written
    get ax set 1
    put cx 3 0 logged; flush sealed; flush wrote
    move freed; move page lost
    get bx log 2; get ax absent

    refuse 8; config 1 1 1 2 1 8 1 65536
    put ax 1 0 nobody; put bx 2 0 logged; flush sealed; flush wrote
    move written
    get ax set 1
    put cx 3 0 logged; flush sealed; flush wrote
    move freed; move forgotten
    get bx absent; get ax absent

    refuse 9; config 1 1 1 2 1 8 1 65536
    put ax 1 0 nobody; put bx 2 0 logged; flush sealed; flush wrote
    move written
    get ax set 1
    put cx 3 0 logged; flush sealed; flush wrote
    move freed; move written
    get bx fault; get ax set 1

    refuse 10; config 1 1 1 2 1 8 1 65536
    put ax 1 0 nobody; put bx 2 0 logged; flush sealed; flush wrote
    move written
    get ax set 1
    put cx 3 0 logged; flush sealed; flush wrote
    move freed; move written
    get bx set 2; get ax fault

    refuse 11; config 1 1 1 2 1 8 1 65536
    put ax 1 0 nobody; put bx 2 0 logged; flush sealed; flush wrote
    move written
    get ax set 1
    put cx 3 0 logged; flush sealed; flush wrote
    move freed; move written
    get bx set 2; get ax set 1
";

#[test]
fn each_refused_call_loses_what_it_must(rt: HostRuntime) -> Result<(), Fail> {
    play(rt.alloc(), REFUSALS)
}

static READ_AGAIN: &[u8] = b"
    refuse 2; config 1 1 1 2 1 8 1 65536
    put ax 1 0 nobody; put bx 2 0 logged; flush sealed; flush wrote
    get ax fault; get ax log 1
";

#[test]
fn a_fault_changes_nothing(rt: HostRuntime) -> Result<(), Fail> {
    play(rt.alloc(), READ_AGAIN)
}

// The log's page is not what was written, and then the set's.
static STRANGE: &[u8] = b"
    stale 1 1; config 1 1 1 2 1 8 1 65536
    put ax 1 0 nobody; put bx 2 0 logged; flush sealed; flush wrote
    get ax damaged
    move page lost
    get ax absent

    stale 0 1; config 1 1 1 2 1 8 1 65536
    put ax 1 0 nobody; put bx 2 0 logged; flush sealed; flush wrote
    move written
    get ax damaged
    put cx 3 0 logged; flush sealed; flush wrote
    move freed; move page lost
    get ax absent
";

#[test]
fn a_strange_page_is_damaged(rt: HostRuntime) -> Result<(), Fail> {
    play(rt.alloc(), STRANGE)
}
