//! What a put or a removal strikes is not found again.
use super::*;

// The three keys have one tag.
static NEIGHBOURS: &[u8] = b"
    config 1 1 1 2 1 8 1 65536
    put a 1 0 nobody; put b 2 0 logged; put c 3 0 logged
    get a absent; get b log 2
";

#[test]
fn a_put_strikes_its_neighbours_of_one_tag(rt: HostRuntime) -> Result<(), Fail> {
    play(rt.alloc(), NEIGHBOURS)
}

// What is on flash of a key is hidden by a put of it, also once the new pair was lost.
static HIDDEN: &[u8] = b"
    config 1 1 1 2 1 8 1 32768
    put ax 1 0 nobody; put bx 2 32767 logged; flush sealed; flush wrote
    move written
    put ax 3 65536 logged; put bx 4 65535 declined
    get ax absent
    put cx 5 32768 declined
    get bx absent; get cx memory 5
";

#[test]
fn a_put_hides_what_is_on_flash(rt: HostRuntime) -> Result<(), Fail> {
    play(rt.alloc(), HIDDEN)
}

static LOST: &[u8] = b"
    config 1 1 1 2 1 8 1 0
    put ax 1 0 nobody; put bx 2 0 declined
    get ax absent
";

#[test]
fn where_none_is_admitted_a_pair_is_lost(rt: HostRuntime) -> Result<(), Fail> {
    play(rt.alloc(), LOST)
}

static NINTH: &[u8] = b"
    config 1 1 1 2 1 16 1 65536
    put ax 1 0 nobody; put bx 1 0 logged; put cx 1 0 logged; put dx 1 0 logged; put ex 1 0 logged
    put fx 1 0 logged; put gx 1 0 logged; put hx 1 0 logged; put ix 1 0 logged; put jx 1 0 logged
    put kx 1 0 logged; flush sealed; flush wrote
    move written
    remove ax; remove bx; remove cx; remove dx; remove ex; remove fx; remove gx; remove hx
    remove ax
    get ax absent; get jx set 1
    remove ix
    get jx absent; get kx memory 1
";

#[test]
fn the_ninth_strike_forgets_the_set(rt: HostRuntime) -> Result<(), Fail> {
    play(rt.alloc(), NINTH)
}
