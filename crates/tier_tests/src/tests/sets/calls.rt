//! Which calls sets make of their device: a write for each rewriting, a read for each look-up that the filter and the
//! strikes let through and for each reading of a set that holds something, and no other.
use super::*;

// The set of ax is empty, written, looked up and read, and empty once more by a forgetting.
static STEPS: &[u8] = b"
    config 1 5 1 2 1 8 1 65536
    look ax absent; locate ax absent
    read none
    write ax=1 written
    look ax hit 1; locate ax 0 1
    touch ax 0
    locate bx absent; look bx absent
    read ax=1 hit
    strike ax
    look ax absent; locate ax absent
    read none
    write ax=1 written
    look ax hit 1
    forget
    look ax absent
    read none
    # The reading after the strike asks for the page, which may hold other records than the one that was struck.
    asked write 3 read 3 read 3 read 3 read 3 write 3 read 3
";

#[test]
fn each_page_is_asked_for_once_and_no_other(rt: HostRuntime) -> Result<(), Fail> {
    play(rt.alloc(), STEPS)
}
