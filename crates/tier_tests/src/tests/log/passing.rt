//! What is reported of the oldest segment if entries of some sets are passed over.
use super::*;

// `ax` and `cx` are of set 0, `bx` of set 1.
static ONE_BY_ONE: &[u8] = b"
    config 1 2 1 2 1 8 1 65536
    append ax 1 appended; append bx 2 appended; append cx 3 appended
    oldest-but no segment; oldest-but 0 1 no segment
    flush sealed; flush wrote
    oldest-but set 0 slot 0; oldest-but 0 set 1 slot 1; oldest-but 1 set 0 slot 0
    oldest-but 0 1 passed; oldest-but 1 0 0 passed; oldest-but 2 7 set 0 slot 0
    strike ax
    oldest-but set 1 slot 1; oldest-but 1 set 0 slot 2; oldest-but 0 1 passed
    strike bx; strike cx
    oldest-but empty; oldest-but 0 1 empty
";

#[test]
fn entries_of_some_sets_are_passed_over(rt: HostRuntime) -> Result<(), Fail> {
    play(rt.alloc(), ONE_BY_ONE)
}

// An entry of a younger segment is not told of, if all of the oldest one are passed over.
static IN_TWO_SEGMENTS: &[u8] = b"
    config 1 2 1 2 1 8 1 65536
    append ax 1 appended; flush sealed; flush wrote; append bx 2 appended; flush sealed; flush wrote
    oldest-but 0 passed; oldest-but 1 set 0 slot 0
";

#[test]
fn a_younger_segment_is_not_looked_into(rt: HostRuntime) -> Result<(), Fail> {
    play(rt.alloc(), IN_TWO_SEGMENTS)
}
