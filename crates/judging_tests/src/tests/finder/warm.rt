//! Histories whose cache was filled before they begin.
use crate::tests::made::play;
use std::test::Fail;

/// Once a history is warmed it has one call more for each hit whose value is taken as there from the start.
static HISTORIES: &[u8] = b"
    # Nothing is added where each value was put.
    new; 0 1 2 put k v1; 0 3 4 hit k v1; 0 0 0 miss j
    warm; count 3; find accepted
    # A value that nobody put, asked for at the last moment.
    new; 0 3 4 hit k v7; 0 0 9 hit k v7 18446744073709551615
    warm 1; count 3; find accepted
    # Two such values of a key: that of the hit which starts first, then that of the first line.
    new; 0 9 9 hit k v8; 0 5 9 hit k v7
    warm 1; count 3; find hit
    new; 0 5 9 hit k v7; 0 5 5 hit k v8
    warm 0; count 3; find hit
    # A put or a removal of the key ended before the hit started.
    new; 0 0 1 put k v1; 0 2 3 hit k v7
    warm; count 2; find hit
    new; 0 2 3 hit k v7; 0 0 1 remove k
    warm; count 2; find hit
    # It ended as the hit started, and it is of another key.
    new; 0 1 2 remove k; 0 2 3 hit k v7
    warm 1; count 3; find accepted
    new; 0 0 1 remove j; 0 2 3 hit k v7
    warm 1; count 3; find accepted
    # A put goes on while the hit starts.
    new; 0 1 4 put k v1; 0 2 3 hit k v7; 0 5 6 hit k v1
    warm 1; count 4; find accepted
    # A stale hit stays one: its value was put and replaced, or put later.
    new; 0 1 2 put k v1; 0 3 4 put k v2; 0 5 6 hit k v1
    warm; count 3; find hit
    new; 0 1 2 hit k v1; 0 5 6 put k v1
    warm; count 2; find hit
    # What was there from the start is replaced, and read once more.
    new; 0 1 1 hit k v7; 0 2 3 put k v1; 0 4 5 hit k v7
    warm 0; count 4; find hit
    # The value was put at another key.
    new; 0 1 1 hit k v7; 0 0 0 put j v7; 0 3 3 hit j v7
    warm 0; count 4; find accepted
    # A put of each key, in the order of the hits.
    new; 0 2 2 hit i v7; 0 1 1 hit k v7; 0 1 1 hit i v7; 0 9 9 hit j v8
    warm 1 2 3; count 7; find accepted
    new
    warm; count 0; find accepted
";

#[test]
fn what_is_found_once_a_history_is_warmed(rt: HostRuntime) -> Result<(), Fail> {
    play(rt.alloc(), HISTORIES)
}

static ADDED: &[u8] = b"
    0 1 2 put h v1; 0 4 6 hit i v7 9
    warm 1; count 3
    show 1 0 4 6 hit i v7 9
    show 2 65535 0 0 put i v7 18446744073709551615
";

#[test]
fn the_puts_that_are_added_come_last(rt: HostRuntime) -> Result<(), Fail> {
    play(rt.alloc(), ADDED)
}
