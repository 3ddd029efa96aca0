//! What enters the log: what is found of it, and what is refused.
use super::*;

static FOUND_UNTIL_STRUCK: &[u8] = b"
    config 1 1 1 2 1 8 1 65536
    append ax 1 appended
    oldest no segment
    look ax hit 1
    # What has expired is no hit, and keeps its prediction.
    look-late ax expired
    flush sealed; flush wrote; flush nothing
    look ax hit 1; look-late ax expired
    oldest 0 2204 at 0 0 0 4
    free not
    strike ax
    look ax absent
    oldest empty
    free freed
    oldest no segment
";

#[test]
fn a_record_is_found_in_memory_and_on_the_device_until_it_is_struck(
    rt: HostRuntime,
) -> Result<(), Fail> {
    play(rt.alloc(), FOUND_UNTIL_STRUCK)
}

static NO_BUFFER_HAS_ROOM: &[u8] = b"
    refuse-from 0; config 1 1 1 2 1 8 1 65536
    append ax 1*200 appended; append bx 2*200 appended; append cx 3*200 full
    look bx hit 2*200; look cx absent
    # A smaller one still has room.
    append cx 3 appended
";

#[test]
fn a_record_without_room_is_refused(rt: HostRuntime) -> Result<(), Fail> {
    play(rt.alloc(), NO_BUFFER_HAS_ROOM)
}

static THE_INDEX_IS_FULL: &[u8] = b"
    refuse-from 0; config 1 1 1 2 1 1 1 65536
    append ax 1 appended; append bx 2 index full
    look bx absent
";

#[test]
fn a_record_past_the_last_entry_is_refused(rt: HostRuntime) -> Result<(), Fail> {
    play(rt.alloc(), THE_INDEX_IS_FULL)
}

static JUST_A_PAGES_ROOM: &[u8] = b"
    config 1 1 1 2 1 8 1 65536
    append ax 7*225 too large; append ax 7*224 appended; flush sealed
    look ax hit 7*224
    flush wrote
    look ax hit 7*224
";

#[test]
fn a_record_of_just_a_pages_room_is_found_after_a_flush(rt: HostRuntime) -> Result<(), Fail> {
    play(rt.alloc(), JUST_A_PAGES_ROOM)
}

// The hashes of "a" and "b" differ below the high 16 bits alone.
static TWO_KEYS_OF_ONE_TAG: &[u8] = b"
    config 1 1 1 2 1 8 1 65536
    append a 1 appended; append b 2 appended; flush sealed; flush wrote
    look a hit 1; look b hit 2
    append a 3 appended
    look a hit 3; look b hit 2
    count 3
    strike a
    look a absent; look b absent
    count 0
";

#[test]
fn keys_of_one_tag_are_found_apart_and_struck_together(rt: HostRuntime) -> Result<(), Fail> {
    play(rt.alloc(), TWO_KEYS_OF_ONE_TAG)
}
