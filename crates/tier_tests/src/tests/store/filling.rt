//! What finds no place.
use super::*;

static WAITING: &[u8] = b"
    config 1 1 1 2 1 8 1 65536
    put ax 1 0 nobody; put bx 2 0 logged; flush sealed; flush wrote; put cx 3 0 logged; flush sealed
    flush wrote; put dx 4 0 logged; flush sealed; flush log full
    move written; move freed
    flush wrote; flush nothing
    get ax set 1; get bx set 2; get cx set 3
";

#[test]
fn a_full_log_waits_for_a_move(rt: HostRuntime) -> Result<(), Fail> {
    play(rt.alloc(), WAITING)
}

static NO_PLACE: &[u8] = b"
    config 1 1 1 2 1 1 1 65536
    put ax 1 0 nobody; put bx 2 0 logged; put cx 3 0 index full
    get bx absent; get ax log 1

    # The log's two buffers have a page each, and a page has room for one of these objects.
    config 1 1 1 2 1 8 1 65536
    put ax v*200 0 nobody; put bx v*200 0 logged; put cx v*200 0 logged; put dx v*200 0 full
    get cx absent; get bx log v*200; get ax log v*200
";

#[test]
fn what_finds_no_place_in_the_log_is_lost(rt: HostRuntime) -> Result<(), Fail> {
    play(rt.alloc(), NO_PLACE)
}

// A refused put leaves the older value.
static SIZES: &[u8] = b"
    config 1 1 1 2 1 8 1 65536
    put a v*225 0 nobody; put a w*226 0 too large
    get a memory v*225
";

#[test]
fn an_object_fits_on_a_page(rt: HostRuntime) -> Result<(), Fail> {
    play(rt.alloc(), SIZES)
}
