//! Hits that several puts fit, and that would cross two writes whichever of them they read.
use crate::tests::made::play;
use std::test::Fail;

/// Such a hit is told with its position, and for each put that it can have read with that put and the write that it would be crossed
/// with.
static HISTORIES: &[u8] = b"
    # The hit of v1 stands between two hits of v2, which read one put, and it can have read two puts.
    new; 0 0 9 put k v1; 0 1 9 put k v1; 0 0 9 put k v2; 0 1 2 hit k v2; 0 3 4 hit k v1; 0 5 6 hit k v2
    find-at unread 4 1 2 0 2
    # It ends as late as the second of them starts.
    new; 0 0 9 put k v1; 0 1 9 put k v1; 0 0 9 put k v2; 0 1 2 hit k v2; 0 3 5 hit k v1; 0 5 6 hit k v2
    find accepted
    # One of its puts has been read by another hit alone, so that two hits of one put stand around the two hits of v2.
    new; 0 0 9 put k v1 5; 0 0 9 put k v1; 0 0 9 put k v2; 0 1 1 hit k v1 7; 0 2 2 hit k v2; 0 4 4 hit k v2; 0 3 3 hit k v1 2
    find-at unread 6 1 2 0 2
    # The same calls at two keys: the second hit of v1 is at the other key, and reads its put there.
    new; 0 0 9 put k v1; 0 1 9 put k v1; 0 0 9 put k v2; 0 1 2 hit j v2; 0 3 4 hit k v1; 0 5 6 hit k v2; 0 0 9 put j v2
    find accepted
    # At one key such a hit, at another a wrong one, which is told although it comes later.
    new; 0 0 9 put k v1; 0 1 9 put k v1; 0 0 9 put k v2; 0 1 2 hit k v2; 0 3 4 hit k v1; 0 5 6 hit k v2; 0 7 8 hit j v3
    find hit
    # At one key such a hit, at another crossed writes, which are told.
    new; 0 0 9 put k v1; 0 1 9 put k v1; 0 0 9 put k v2; 0 1 2 hit k v2; 0 3 4 hit k v1; 0 5 6 hit k v2; 0 10 19 put j v1
    0 10 19 put j v2; 0 11 12 hit j v1; 0 13 13 hit j v2; 0 15 16 hit j v1
    find crossed
    # At each of two keys such a hit: that of the second one ends first, and is told.
    new; 0 0 19 put k v1; 0 1 19 put k v1; 0 0 19 put k v2; 0 11 12 hit k v2; 0 13 14 hit k v1; 0 15 16 hit k v2; 0 0 9 put j v1
    0 1 9 put j v1; 0 0 9 put j v2; 0 1 2 hit j v2; 0 3 4 hit j v1; 0 5 6 hit j v2
    find-at unread 10 7 8 6 8
    # No hit is such, and there is no order: two hits of v1 read two of three puts, and each may be either.
    new; 0 0 19 put k v1; 0 0 19 put k v1; 0 0 19 put k v2; 0 0 19 put k v3; 0 1 1 hit k v1; 0 3 3 hit k v2; 0 5 5 hit k v1
    0 7 7 hit k v3; 0 9 9 hit k v1
    find undecided
    # Each hit can have read one put.
    new; 0 0 1 put k v1; 0 2 3 hit k v1
    find accepted
";

#[test]
fn a_hit_that_would_cross_two_writes_in_any_case_is_found(rt: HostRuntime) -> Result<(), Fail> {
    play(rt.alloc(), HISTORIES)
}
