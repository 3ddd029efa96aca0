//! Histories made by hand, with what must be found for them.
use crate::tests::made::{play, play_on};
use record_pages::NEVER;
use std::alloc::Global;
use std::test::Fail;
use test_devices::{key, value};
use trace_file::{Act, Call, History};

static TELLING: &[u8] = b"
    # No call, and one of each kind.
    new
    find accepted
    new; 0 0 0 put k v1
    find accepted
    new; 0 0 0 miss k
    find accepted
    new; 0 0 0 hit k v1
    find hit
    new; 0 4 3 remove k
    find interval
    # A hit before its put, at one stamp with it, and after it.
    new; 0 0 1 hit k v1; 0 2 3 put k v1
    find hit
    new; 0 0 2 hit k v1; 0 2 3 put k v1
    find accepted
    new; 0 4 5 hit k v1; 0 2 3 put k v1
    find accepted
    # A stale hit: after another put, and after a removal; not if they overlap; not if they are of another key.
    new; 0 0 1 put k v1; 0 2 3 put k v2; 0 4 5 hit k v1
    find hit
    new; 0 0 1 put k v1; 0 2 3 remove k; 0 4 5 hit k v1
    find hit
    new; 0 0 1 put k v1; 0 2 4 remove k; 0 4 5 hit k v1
    find accepted
    new; 0 0 1 put k v1; 0 2 3 remove j; 0 4 5 hit k v1
    find accepted
    # A put that ends late, read before and after one that it spans.
    new; 0 0 9 put k v1; 0 2 3 put k v2; 0 4 5 hit k v1; 0 6 7 hit k v1
    find accepted
    new; 0 0 9 put k v1; 0 1 2 hit k v1; 0 3 4 put k v2; 0 5 6 hit k v1
    find crossed
    # Two writes each of which has to stand first.
    new; 0 0 9 put k v1; 0 0 9 put k v2; 0 1 2 hit k v1; 0 3 4 hit k v2; 0 5 6 hit k v1
    find crossed
    # Expired at the moment of the hit, and a moment before.
    new; 0 0 1 put k v1 5; 0 2 3 hit k v1 5
    find hit
    new; 0 0 1 put k v1 5; 0 2 3 hit k v1 4
    find accepted
    # A value that was put twice: both can have been read, or the first one can't.
    new; 0 0 9 put k v1; 0 0 9 put k v1; 0 1 2 hit k v1
    find accepted
    new; 0 0 1 put k v1; 0 2 3 put k v1; 0 4 5 hit k v1
    find accepted
    # One hit can have read two puts, and another one none.
    new; 0 0 9 put k v1; 0 0 9 put k v1; 0 1 2 hit k v1; 0 0 1 hit j v3
    find hit
";

#[test]
fn what_is_found_for_telling_histories(rt: HostRuntime) -> Result<(), Fail> {
    play(rt.alloc(), TELLING)
}

static CROSSED: &[u8] = b"
    # Between two reads of a value another one was put, or it was removed; not if the times touch.
    new; 0 0 9 put k v1; 0 1 2 hit k v1; 0 3 6 put k v2; 0 7 8 hit k v1
    find crossed
    new; 0 0 9 put k v1; 0 1 2 hit k v1; 0 3 7 put k v2; 0 7 8 hit k v1
    find accepted
    new; 0 0 9 put k v1; 0 1 2 hit k v1; 0 2 6 put k v2; 0 7 8 hit k v1
    find accepted
    new; 0 0 9 put k v1; 0 1 2 hit k v1; 0 3 4 remove k; 0 5 6 hit k v1
    find crossed
    # Puts at one time, whose reads go one after the other, back and forth, and back and forth at equal stamps.
    new; 0 0 9 put k v1; 0 0 9 put k v2; 0 0 9 put k v3; 0 1 2 hit k v3; 0 3 4 hit k v1; 0 5 6 hit k v2
    find accepted
    new; 0 0 9 put k v1; 0 0 9 put k v2; 0 0 9 put k v3; 0 1 2 hit k v3; 0 3 4 hit k v1; 0 5 6 hit k v3
    find crossed
    new; 0 0 9 put k v1; 0 0 9 put k v2; 0 1 2 hit k v1; 0 2 3 hit k v2; 0 3 4 hit k v1
    find accepted
    # Of two keys.
    new; 0 0 9 put k v1; 0 1 2 hit k v1; 0 3 6 put j v2; 0 7 8 hit k v1
    find accepted
    # Beside a hit that can have read two puts.
    new; 0 0 9 put j v1; 0 0 9 put j v1; 0 1 2 hit j v1; 0 0 9 put k v1; 0 1 2 hit k v1; 0 3 6 remove k; 0 7 8 hit k v1
    find crossed
";

#[test]
fn what_is_found_for_writes_that_are_crossed(rt: HostRuntime) -> Result<(), Fail> {
    play(rt.alloc(), CROSSED)
}

static EXPIRING: &[u8] = b"
    # Of two puts both had expired, one had, or none.
    new; 0 0 9 put k v1 5; 0 0 9 put k v1 6; 0 1 2 hit k v1 6
    find hit
    new; 0 0 9 put k v1 5; 0 0 9 put k v1 7; 0 1 2 hit k v1 6
    find accepted
    new; 0 0 9 put k v1 7; 0 0 9 put k v1; 0 1 2 hit k v1 6
    find accepted
    # At the greatest moments, of a put that never expires and one that expires last.
    new; 0 0 9 put k v1; 0 0 9 put k v1 18446744073709551614; 0 1 2 hit k v1 18446744073709551615; 0 1 2 hit k v1 18446744073709551614
    find accepted
    new; 0 0 9 put k v1; 0 0 9 put k v1 18446744073709551614; 0 1 2 hit k v1 18446744073709551613
    find accepted
    # The one that is live was removed; and beside such a one another is live that was not: it alone can have been read.
    new; 0 0 1 put k v1 9; 0 2 3 remove k; 0 4 9 put k v1 5; 0 4 9 put k v1 5; 0 5 6 hit k v1 6
    find hit
    new; 0 0 1 put k v1 9; 0 2 3 remove k; 0 4 9 put k v1 5; 0 4 9 put k v1 9; 0 5 6 hit k v1 6
    find accepted
    # Beside puts of another key and of another value: one that stands and is live, and two.
    new; 0 0 1 put k v1 9; 0 2 3 remove k; 0 4 5 put k v1 4; 0 4 9 put k v1 9; 0 4 9 put j v1 9; 0 4 9 put k v2 9; 0 6 7 hit k v1 5
    find accepted
    new; 0 0 1 put k v1 9; 0 2 3 remove k; 0 4 5 put k v1 8; 0 4 9 put k v1 9; 0 4 9 put j v1 9; 0 4 9 put k v2 9; 0 6 7 hit k v1 5
    find accepted
    # Two reads that only one of two puts explains, and between them another value.
    new; 0 0 9 put k v1 5; 0 0 9 put k v1 9; 0 0 9 put k v2; 0 1 2 hit k v1 6; 0 3 4 hit k v2; 0 5 6 hit k v1 6
    find crossed
";

#[test]
fn what_is_found_where_values_expire(rt: HostRuntime) -> Result<(), Fail> {
    play(rt.alloc(), EXPIRING)
}

static REPEATED: &[u8] = b"
    # Two equal puts, with a hit of each, and a removal between them.
    new; 0 0 4 put k v1; 0 2 9 put k v1; 0 1 3 hit k v1; 0 5 6 remove k; 0 7 8 hit k v1
    find accepted
    # Two callers miss and both load the row, which changes: twice.
    new; 0 0 1 miss k; 0 0 2 miss k; 0 2 5 put k v1; 0 3 6 put k v1; 0 6 7 hit k v1; 0 8 9 remove k; 0 10 13 put k v2; 0 11 14 put k v2
    0 12 15 hit k v2; 0 16 17 hit k v2
    find accepted
    # Two values that are put by turns, each by two callers, with hits of both.
    new; 0 0 3 put k v0; 0 1 4 put k v0; 0 3 4 hit k v0; 0 5 8 put k v1; 0 6 9 put k v1; 0 6 6 hit k v0; 0 8 9 hit k v1
    0 10 13 put k v0; 0 11 11 hit k v1; 0 12 14 hit k v0
    find accepted
    # A value of one put is read, then one of two puts, then the first one again: no order has all three.
    new; 0 0 9 put k v1; 0 0 9 put k v1; 0 0 9 put k v2; 0 1 2 hit k v2; 0 3 4 hit k v1; 0 5 6 hit k v2
    find unread
    # Such a one, and at another key a hit that can have read no put.
    new; 0 0 9 put k v1; 0 0 9 put k v1; 0 0 9 put k v2; 0 1 2 hit k v2; 0 3 4 hit k v1; 0 5 6 hit k v2; 0 5 6 hit j v2
    find hit
    # Beside hits that several puts fit, hits of one put each exclude every order.
    new; 0 0 9 put k v1; 0 0 9 put k v1; 0 0 9 put k v2; 0 0 9 put k v3; 0 1 2 hit k v2; 0 3 4 hit k v3; 0 3 4 hit k v1; 0 5 6 hit k v2
    find crossed
    # An order has these three hits, but no rule finds it: each takes one of the equal puts for both its hits.
    new; 0 0 9 put k v1; 0 0 9 put k v1; 0 0 9 put k v2; 0 1 2 hit k v1; 0 3 4 hit k v2; 0 5 6 hit k v1
    find undecided
";

#[test]
fn what_is_found_where_values_repeat(rt: HostRuntime) -> Result<(), Fail> {
    play(rt.alloc(), REPEATED)
}

/// How many calls a long history has.
const MANY: u64 = 2000000;

/// The call of a long history at a stamp: a put, or the hit of what was put at the stamp before.
fn call_at(alloc: Global, stamp: u64) -> Result<Call, Fail> {
    let value = value(alloc, &[(stamp / 502 % 256) as u8])?;
    let act = if stamp % 2 == 0 {
        Act::Put(value, NEVER)
    } else {
        Act::Hit(value, 0)
    };
    Ok(Call {
        caller: 0,
        start: stamp,
        end: stamp,
        key: key(alloc, &[(stamp / 2 % 251) as u8])?,
        act,
    })
}

/// A long history.
fn long_history(alloc: Global) -> Result<History, Fail> {
    let mut history = History::new(alloc);
    for stamp in 0..MANY {
        history.push(call_at(alloc, stamp)?)?;
    }
    Ok(history)
}

#[test]
fn a_history_of_two_million_calls_is_accepted(rt: HostRuntime) -> Result<(), Fail> {
    let history = long_history(rt.alloc())?;
    play_on(rt.alloc(), history, b"count 2000000; find accepted")
}
