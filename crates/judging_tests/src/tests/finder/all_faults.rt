//! All that is wrong with histories made by hand.
use crate::tests::made::play;
use std::test::Fail;

/// After each history the calls that end before they start, the wrong hits, the crossed writes, two by two, and the hits that would
/// cross two writes whichever of several puts they read.
static HISTORIES: &[u8] = b"
    # Nothing.
    new; 0 0 1 put k v1; 0 2 3 hit k v1
    list reversed hits crossed unread
    # Hits that were put never, too late, and written over: the first in the history ends last, and two end at one stamp.
    new; 0 10 11 hit k v9; 0 0 1 put k v1; 0 2 3 put k v2; 0 4 5 hit k v1; 0 3 5 hit j v3; 0 6 7 hit k v2; 0 6 8 put j v3
    0 9 9 hit j v3
    list reversed hits 3 4 0 crossed unread
    # Calls that end before they start, beside a hit that has expired.
    new; 0 9 7 miss k; 0 0 1 put j v1 5; 0 2 3 hit j v1 5; 0 2 3 hit j v1 4; 0 1 0 put i v1
    list reversed 0 4 hits 2 crossed unread
    # At two keys writes that are crossed, at the second one three of them; a wrong hit of each key hides none.
    new; 0 0 9 put k v1; 0 0 9 put k v2; 0 1 2 hit k v1; 0 3 3 hit k v2; 0 5 6 hit k v1; 0 7 8 hit k v3; 0 0 9 put j v1; 0 0 9 put j v2
    0 0 9 put j v3; 0 1 2 hit j v1; 0 2 3 hit j v2; 0 3 3 hit j v3; 0 5 9 hit j v1; 0 6 6 hit j v3; 0 4 4 hit j v4
    list reversed hits 14 5 crossed 1 0 6 8 unread
    # A value of one put is read, then one of two puts, then the first one again: nothing is sure.
    new; 0 0 9 put k v1; 0 0 9 put k v1; 0 0 9 put k v2; 0 1 2 hit k v2; 0 3 4 hit k v1; 0 5 6 hit k v2
    list reversed hits crossed unread 4
    # The same at two keys, beside a wrong hit; the hit of the second key ends first, and another one there reads a put that is free.
    new; 0 0 19 put k v1; 0 0 19 put k v1; 0 0 19 put k v2; 0 11 12 hit k v2; 0 13 14 hit k v1; 0 15 16 hit k v2; 0 0 9 put j v1
    0 0 9 put j v1; 0 0 9 put j v2; 0 1 2 hit j v2; 0 3 4 hit j v1; 0 5 6 hit j v2; 0 8 9 hit j v1; 0 17 18 hit i v7
    list reversed hits 13 crossed unread 10 4
    # Two puts of one value that are crossed by hits with moments at which only one of them is live: the third hit, which both fit, is
    # listed too.
    new; 0 0 9 put k v1 5; 0 0 9 put k v2; 0 0 9 put k v1; 0 1 1 hit k v1 7; 0 2 2 hit k v2; 0 4 4 hit k v1 7; 0 3 3 hit k v1 2
    0 5 5 hit k v2
    list reversed hits crossed 2 1 unread 6
";

#[test]
fn each_fault_is_told_once_in_order(rt: HostRuntime) -> Result<(), Fail> {
    play(rt.alloc(), HISTORIES)
}

/// The hit that ends first is told. Each wrong hit has what excludes its put.
static HITS: &[u8] = b"
    new; 0 10 11 hit k v9; 0 0 1 put k v1; 0 2 3 put k v2; 0 4 5 hit k v1; 0 3 5 hit j v3; 0 6 7 hit k v2; 0 6 8 put j v3
    0 9 9 hit j v3
    find-at hit 3
    puts 18446744073709551615 hit 3 put 1 over 2 late 1 hit 4 put 6 later hit 0
";

#[test]
fn each_wrong_hit_has_what_excludes_its_put(rt: HostRuntime) -> Result<(), Fail> {
    play(rt.alloc(), HITS)
}

/// A value that is put four times, then removed, and read after that; a value that expires, and one that is put too late. Of the puts
/// of a wrong hit the first so many are listed, and how late it is is by all of them.
static REPEATED: &[u8] = b"
    new; 0 0 1 put k v1; 0 2 3 put k v1; 0 4 5 put k v1; 0 40 50 put k v1; 0 10 20 remove k; 0 30 31 hit k v1; 0 0 1 put j v1 5
    0 30 31 hit j v1 5; 0 30 32 hit i v1; 0 40 50 put i v1
    puts 2 hit 5 put 0 over 1 put 1 over 2 late 10 hit 7 put 6 expired hit 8 put 9 later
    puts 0 hit 5 late 10 hit 7 hit 8
";

#[test]
fn a_wrong_hit_has_the_first_of_its_puts(rt: HostRuntime) -> Result<(), Fail> {
    play(rt.alloc(), REPEATED)
}
