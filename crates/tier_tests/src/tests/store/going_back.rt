//! A device that goes back on one page: what it gives then is no page of the store's.
use super::*;

static LOG_PAGES: &[u8] = b"
    # The page of the log's second segment is blank again. The entry there of a key with the tag of another one ends a get of that:
    # its value in the set is visible, and is not looked for.
    stale 2 1; config 1 1 1 2 1 8 1 65536
    put a 1 0 nobody; put bx 2 0 logged; flush sealed; flush wrote
    move written
    put b 3 0 logged; put cx 4 0 logged; flush sealed; flush wrote
    get a damaged

    # The page of the log's third segment is that of the first again, which had the same key at the same place: its older value is not
    # given.
    stale 1 2; config 1 1 1 2 1 8 1 65536
    put ax 1 0 nobody; put bx 2 0 logged; flush sealed; flush wrote
    get ax log 1
    move written; move freed
    put ax 3 0 logged; flush sealed; flush wrote; put cx 4 0 logged; flush sealed; flush wrote
    get bx log 2; get ax damaged
";

#[test]
fn a_page_that_went_back_is_damaged_and_ends_a_get(rt: HostRuntime) -> Result<(), Fail> {
    play(rt.alloc(), LOG_PAGES)
}

// Another store wrote a record of another tag at the place of this one's.
static TWO_STORES: &[u8] = b"
    stale 1 2; config 1 1 1 2 1 8 1 65536
    put bx 1 0 nobody; put cx 2 0 logged; flush sealed; flush wrote
    get bx log 1
    again
    put ax 1 0 nobody; put cx 2 0 logged; flush sealed; flush wrote
    get ax damaged
";

#[test]
fn a_record_of_another_tag_is_damaged(rt: HostRuntime) -> Result<(), Fail> {
    play(rt.alloc(), TWO_STORES)
}
