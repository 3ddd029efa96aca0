//! Which calls a log makes of its device: each page that it must read or write, once, in order, and no other.
use super::scripted::wrong_line;
use super::*;

// Two records fill a page each. They are looked up while they lie in the filling buffer and in the flushing one, and on
// the device; then they are taken, readmitted, found in the buffer again, struck and freed. The pages that they were readmitted
// to are written all the same.
static STEPS: &[u8] = b"
    config 1 1 1 2 2 8 1 65536
    append ax 1*200 appended; append bx 2*200 appended
    look ax hit 1*200
    flush sealed
    look bx hit 2*200
    flush wrote
    look ax hit 1*200
    flush wrote
    look ax hit 1*200; look bx hit 2*200; look cx absent
    take bx=2*200 at 0 1 0 4 0 ax=1*200 at 0 0 0 3 0
    readmit readmitted; readmit readmitted
    look ax hit 1*200
    strike bx
    look bx absent
    free freed
    strike ax
    flush sealed; flush wrote; flush wrote
    # Two writes by flushing; a read by each look-up on the device; two by the taking, newest first; one by each readmission; and the
    # writes of two pages on which nothing is live.
    asked write 1 write 2 read 1 read 2 read 2 read 1 read 1 read 2 write 3 write 4
";

#[test]
fn each_page_is_asked_for_once_and_no_other(rt: HostRuntime) -> Result<(), Fail> {
    play(rt.alloc(), STEPS)
}

// Three keys with one tag, of which two have a record: the newer one is read first, and if it has the key no other.
static ONE_TAG: &[u8] = b"
    config 1 1 1 2 2 8 1 65536
    append a 1*200 appended; append b 2*200 appended; flush sealed; flush wrote; flush wrote
    look b hit 2*200; look a hit 1*200; look c absent
    asked write 1 write 2 read 2 read 2 read 1 read 2 read 1
";

#[test]
fn a_hit_ends_the_reading(rt: HostRuntime) -> Result<(), Fail> {
    play(rt.alloc(), ONE_TAG)
}

// The device was asked for other pages, in the last line.
static UNPLANNED: &[u8] = b"
    config 1 1 1 2 2 8 1 65536
    append a 1*200 appended; append b 2*200 appended; flush sealed; flush wrote; flush wrote
    look b hit 2*200; look a hit 1*200; look c absent
    asked write 1 write 2 read 1 read 2 read 2 read 1 read 1";

#[test]
fn a_call_that_is_not_planned_is_seen(rt: HostRuntime) -> Result<(), Fail> {
    assert!(rt; wrong_line(rt.alloc(), UNPLANNED)? == 5);
    Ok(())
}
