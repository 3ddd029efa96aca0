//! Each call of the device refused in turn, alone and with all later ones, and pages that are not the sets'.
use super::*;

// A writing of the set, a look-up and a reading, twice: six calls of the device if none is refused. Then one of them is refused, from
// the first to the sixth.
static ALONE: &[u8] = b"
    refuse 7; config 1 1 1 2 1 8 1 65536
    write ax=1 bx=2 written; look ax hit 1; read ax=1 hit bx=2
    write ax=1 bx=2 written; look bx hit 2; read ax=1 bx=2 hit

    refuse 1; config 1 1 1 2 1 8 1 65536
    write ax=1 bx=2 forgotten; look ax absent; read none
    write ax=1 bx=2 written; look bx hit 2; read ax=1 bx=2 hit

    refuse 2; config 1 1 1 2 1 8 1 65536
    write ax=1 bx=2 written; look ax fault; read ax=1 bx=2
    write ax=1 bx=2 written; look bx hit 2; read ax=1 bx=2 hit

    refuse 3; config 1 1 1 2 1 8 1 65536
    write ax=1 bx=2 written; look ax hit 1; read page lost
    write ax=1 bx=2 written; look bx hit 2; read ax=1 bx=2 hit

    refuse 4; config 1 1 1 2 1 8 1 65536
    write ax=1 bx=2 written; look ax hit 1; read ax=1 hit bx=2
    write ax=1 bx=2 forgotten; look bx absent; read none

    refuse 5; config 1 1 1 2 1 8 1 65536
    write ax=1 bx=2 written; look ax hit 1; read ax=1 hit bx=2
    write ax=1 bx=2 written; look bx fault; read ax=1 bx=2

    refuse 6; config 1 1 1 2 1 8 1 65536
    write ax=1 bx=2 written; look ax hit 1; read ax=1 hit bx=2
    write ax=1 bx=2 written; look bx hit 2; read page lost
";

#[test]
fn a_call_of_the_device_may_fail(rt: HostRuntime) -> Result<(), Fail> {
    play(rt.alloc(), ALONE)
}

// The same if all calls from one on are refused.
static FOR_GOOD: &[u8] = b"
    refuse-from 1; config 1 1 1 2 1 8 1 65536
    write ax=1 bx=2 forgotten; look ax absent; read none
    write ax=1 bx=2 forgotten; look bx absent; read none

    refuse-from 2; config 1 1 1 2 1 8 1 65536
    write ax=1 bx=2 written; look ax fault; read page lost
    write ax=1 bx=2 forgotten; look bx absent; read none

    refuse-from 3; config 1 1 1 2 1 8 1 65536
    write ax=1 bx=2 written; look ax hit 1; read page lost
    write ax=1 bx=2 forgotten; look bx absent; read none

    refuse-from 4; config 1 1 1 2 1 8 1 65536
    write ax=1 bx=2 written; look ax hit 1; read ax=1 hit bx=2
    write ax=1 bx=2 forgotten; look bx absent; read none

    refuse-from 5; config 1 1 1 2 1 8 1 65536
    write ax=1 bx=2 written; look ax hit 1; read ax=1 hit bx=2
    write ax=1 bx=2 written; look bx fault; read page lost

    refuse-from 6; config 1 1 1 2 1 8 1 65536
    write ax=1 bx=2 written; look ax hit 1; read ax=1 hit bx=2
    write ax=1 bx=2 written; look bx hit 2; read page lost
";

#[test]
fn all_calls_of_the_device_from_one_on_may_fail(rt: HostRuntime) -> Result<(), Fail> {
    play(rt.alloc(), FOR_GOOD)
}

// With one allocation refused, whichever it is once the device is made, this test passes: a call that was refused memory
// changed nothing.
static WHOLE: &[u8] = b"
    config 1 1 1 2 1 8 1 65536
    write ax=1 bx=2 written; look ax hit 1; read ax=1 hit bx=2
    write ax=1 bx=2 written; look bx hit 2; read ax=1 bx=2 hit
";

#[test]
fn refused_memory_changes_nothing(rt: HostRuntime) -> Result<(), Fail> {
    play(rt.alloc(), WHOLE)
}

static DAMAGED: &[u8] = b"
    write ax=1 bx=2 written
    look ax damaged
    read page lost
    look ax absent
";

#[test]
fn a_page_that_is_not_the_sets_is_damaged(rt: HostRuntime) -> Result<(), Fail> {
    play_on_blank(rt.alloc(), DAMAGED)
}
