//! Strikes: eight a set are held, if there is room for them, and the next forgets its set.
use super::*;

static THE_NINTH: &[u8] = b"
    config 1 1 1 2 1 8 1 65536
    write ax=1 bx=1 cx=1 dx=1 ex=1 fx=1 gx=1 hx=1 ix=1 jx=1 kx=1 written
    strike ax; strike bx; strike cx; strike dx; strike ex; strike fx; strike gx; strike hx
    # A strike that is there, and one that the filter denies, add none.
    strike ax; strike zz
    look jx hit 1
    read ix=1 jx=1 hit kx=1
    strike ix
    look jx absent
";

#[test]
fn the_ninth_strike_forgets_the_set(rt: HostRuntime) -> Result<(), Fail> {
    play(rt.alloc(), THE_NINTH)
}

// Two bytes that are none of the eleven keys, but pass the filter of all: so a strike of them counts, as the filter says
// that they may be there.
static THE_NINTH_AFTER_A_STRANGER: &[u8] = b"
    config 1 1 1 2 1 8 1 65536
    write ax=1 bx=1 cx=1 dx=1 ex=1 fx=1 gx=1 hx=1 ix=1 jx=1 kx=1 written
    strike \x00\x02; strike ax; strike bx; strike cx; strike dx; strike ex; strike fx; strike gx
    look kx hit 1
    strike hx
    look kx absent
";

#[test]
fn a_strike_goes_by_the_filters_answer(rt: HostRuntime) -> Result<(), Fail> {
    play(rt.alloc(), THE_NINTH_AFTER_A_STRANGER)
}

// The sets of ax and of bx differ, and each has both records. There is room for one strike in all.
static WITH_ONE_PLACE: &[u8] = b"
    room 1; config 1 5 1 2 1 8 1 65536
    write-of ax ax=1 bx=2 written; write-of bx ax=1 bx=2 written
    strike ax
    read-of ax bx=2
    # A strike that is there needs no room.
    strike ax
    read-of ax bx=2; read-of bx ax=1 bx=2
    # One for which there is no room forgets its set, and no other.
    strike bx
    read-of bx none; read-of ax bx=2
    # A set that is written anew gives its place back.
    write-of ax ax=1 bx=2 written; write-of bx ax=1 bx=2 written
    strike bx
    read-of bx ax=1
    strike ax
    read-of ax none
";

#[test]
fn a_strike_without_room_forgets_its_set_alone(rt: HostRuntime) -> Result<(), Fail> {
    play(rt.alloc(), WITH_ONE_PLACE)
}

// A set that is forgotten gives its place back.
static AFTER_A_FORGETTING: &[u8] = b"
    room 1; config 1 5 1 2 1 8 1 65536
    write-of ax ax=1 bx=2 written; write-of bx ax=1 bx=2 written
    strike ax; forget; strike bx
    read-of bx ax=1; read-of ax none
";

#[test]
fn a_forgotten_set_gives_its_place_back(rt: HostRuntime) -> Result<(), Fail> {
    play(rt.alloc(), AFTER_A_FORGETTING)
}
