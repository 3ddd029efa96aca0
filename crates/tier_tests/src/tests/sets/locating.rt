//! Keys that are located: a hit leaves its value in the buffer, all other answers leave it as it was, and nothing is noted
//! until a slot is touched.
use super::*;

// The second call of the device is refused, which is the first that locates.
static ON_THE_PAGE: &[u8] = b"
    refuse 2; config 1 1 1 2 1 8 1 65536
    write ax=1 bx=2 written
    locate ax fault; locate-late bx expired; locate ax 0 1; locate bx 1 2; locate cx absent
    locate - absent; locate a*256 absent
    # Nothing was noted.
    read ax=1 bx=2
    touch ax 1
    read ax=1 bx=2 hit
    locate bx 1 2
    strike bx
    locate bx absent
";

#[test]
fn a_hit_is_in_the_buffer_and_a_miss_leaves_it(rt: HostRuntime) -> Result<(), Fail> {
    play(rt.alloc(), ON_THE_PAGE)
}

static LOST: &[u8] = b"
    write ax=1 bx=2 written
    locate ax damaged
";

#[test]
fn a_lost_page_leaves_the_buffer(rt: HostRuntime) -> Result<(), Fail> {
    play_on_blank(rt.alloc(), LOST)
}

// The sets of ax and of bx differ, and each has both records.
static IN_TWO_SETS: &[u8] = b"
    config 1 5 1 2 1 8 1 65536
    write-of ax ax=1 bx=2 written; write-of bx ax=1 bx=2 written
    locate ax 0 1; locate bx 1 2
    read-of ax ax=1 bx=2; read-of bx ax=1 bx=2
    touch bx 1
    read-of ax ax=1 bx=2; read-of bx ax=1 bx=2 hit
    touch ax 0
    read-of ax ax=1 hit bx=2; read-of bx ax=1 bx=2 hit
";

#[test]
fn a_touch_notes_its_slot_of_its_set(rt: HostRuntime) -> Result<(), Fail> {
    play(rt.alloc(), IN_TWO_SETS)
}
