//! Bad lines that are passed over or not, and shares of keys.
use crate::tests::cases::check_cases;
use crate::tests::reading::came_of;
use history_text::{Reading, Share};
use std::alloc::Global;
use std::test::Fail;

/// A bad line for each cause of its own, between two calls: it is a fault, and passed over if that is wanted.
static BAD: &[u8] = b"
came bad
^b 1 2 put k v
a 1 2
c 3 4 hit k v
^bad line 2: a line has five to seven words of printable ASCII, separated by single spaces: CALLER START END put|hit|miss|remove KEY [VALUE [TIME]]
@
skip; came 2 2 1 1 3
^b 1 2 put k v
a 1 2
c 3 4 hit k v
^@
came bad
^b 1 2 put k v
a x 2 miss k
c 3 4 hit k v
^bad line 2: START must be a number below 2^63, in decimal without leading zeros
@
skip; came 2 2 1 1 3
^b 1 2 put k v
a x 2 miss k
c 3 4 hit k v
^@
came bad
^b 1 2 put k v
a 1 x miss k
c 3 4 hit k v
^bad line 2: END must be a number below 2^63, in decimal without leading zeros, or - if the call never returned
@
skip; came 2 2 1 1 3
^b 1 2 put k v
a 1 x miss k
c 3 4 hit k v
^@
came bad
^b 1 2 put k v
a 1 2 get k
c 3 4 hit k v
^bad line 2: the fourth word must be put, hit, miss or remove
@
skip; came 2 2 1 1 3
^b 1 2 put k v
a 1 2 get k
c 3 4 hit k v
^@
came bad
^b 1 2 put k v
a 1 2 miss k v
c 3 4 hit k v
^bad line 2: wrong number of words: put and hit have KEY VALUE and at most one time after them, miss and remove have only KEY
@
skip; came 2 2 1 1 3
^b 1 2 put k v
a 1 2 miss k v
c 3 4 hit k v
^@
came bad
^b 1 2 put k v
a 1 - miss k
c 3 4 hit k v
^bad line 2: END of a hit or a miss must be a number: leave out gets that never returned
@
skip; came 2 2 1 1 3
^b 1 2 put k v
a 1 - miss k
c 3 4 hit k v
^@
came bad
^b 1 2 put k v
a 1 2 miss %
c 3 4 hit k v
^bad line 2: bad percent-encoding in the key: % must be followed by two hexadecimal digits
@
skip; came 2 2 1 1 3
^b 1 2 put k v
a 1 2 miss %
c 3 4 hit k v
^@
came bad
^b 1 2 put k v
a 1 2 miss -
c 3 4 hit k v
^bad line 2: the key must have 1 to 255 bytes after percent-decoding: - means no bytes, %2D is a hyphen
@
skip; came 2 2 1 1 3
^b 1 2 put k v
a 1 2 miss -
c 3 4 hit k v
^@
came bad
^b 1 2 put k v
a 1 2 put k %
c 3 4 hit k v
^bad line 2: bad percent-encoding in the value: % must be followed by two hexadecimal digits
@
skip; came 2 2 1 1 3
^b 1 2 put k v
a 1 2 put k %
c 3 4 hit k v
^@
came bad
^b 1 2 put k v
a 1 2 put k v x
c 3 4 hit k v
^bad line 2: the expiry of a put must be a number below 2^63, in decimal without leading zeros: leave it out if the value never expires
@
skip; came 2 2 1 1 3
^b 1 2 put k v
a 1 2 put k v x
c 3 4 hit k v
^@
came bad
^b 1 2 put k v
a 1 2 hit k v x
c 3 4 hit k v
^bad line 2: the moment of a hit must be a number below 2^63, in decimal without leading zeros: leave it out to mean 0
@
skip; came 2 2 1 1 3
^b 1 2 put k v
a 1 2 hit k v x
c 3 4 hit k v
^@
came bad
^b 1 2 put k v
a 1 2 hit k % x
c 3 4 hit k v
^bad line 2: bad percent-encoding in the value: % must be followed by two hexadecimal digits
@
skip; came 2 2 1 1 3
^b 1 2 put k v
a 1 2 hit k % x
c 3 4 hit k v
^";

#[test]
fn a_bad_line_is_a_fault_unless_it_may_be_passed_over(rt: HostRuntime) -> Result<(), Fail> {
    check_cases(rt.alloc(), BAD)
}

static LONG: &[u8] = b"
fill x 8193; line; line c 3 4 hit k v; skip; came bad
^b 1 2 put k v
^bad line 2: the line is too long: a line has at most 8192 bytes
";

#[test]
fn a_line_that_is_too_long_is_a_fault_even_so(rt: HostRuntime) -> Result<(), Fail> {
    check_cases(rt.alloc(), LONG)
}

/// Whether a key is in one of seven shares.
fn has(part: u32, key: &[u8]) -> bool {
    match Share::new(part, 7) {
        Some(share) => share.has(key),
        None => false,
    }
}

/// How many of seven shares have a key.
fn shares_with(key: &[u8]) -> u32 {
    let mut shares: u32 = 0;
    for part in 0..7u32 {
        shares = shares.saturating_add(u32::from(has(part, key)));
    }
    shares
}

#[test]
fn each_key_is_in_one_share(rt: HostRuntime) {
    for number in 0..200u8 {
        let key = [b'k', number];
        assert!(rt; shares_with(key.as_slice()) == 1);
        assert!(rt; Share::ALL.has(key.as_slice()));
    }
    assert!(rt; Share::new(7, 7).is_none() && Share::new(0, 0).is_none());
}

/// Two calls on each of two keys.
static TWO_KEYS: &[u8] = b"a 1 2 put k v\nb 3 4 put l w\na 5 6 hit k v\nb 7 8 hit l w\n";

/// How many calls a share of five has of them; none if it has not all calls of some keys, with their callers.
fn calls_in(alloc: Global, part: u32) -> Option<usize> {
    let reading = Reading {
        share: Share::new(part, 5)?,
        ..Reading::WHOLE
    };
    let mut text = TWO_KEYS;
    let came = came_of(alloc, reading, &mut text).ok()?;
    let last = came.lines.last().copied().unwrap_or(0);
    let are_whole = match came.calls {
        0 => came.callers == 0 && last == 0,
        2 => came.callers == 1 && (last == 3 || last == 4),
        4 => came.callers == 2 && last == 4,
        _ => false,
    };
    if are_whole && came.skipped == 0 {
        Some(came.calls)
    } else {
        None
    }
}

#[test]
fn calls_of_other_keys_are_left_out_with_their_callers(rt: HostRuntime) {
    let mut calls: usize = 0;
    for part in 0..5u32 {
        let some = calls_in(rt.alloc(), part);
        assert!(rt; some.is_some());
        calls = calls.saturating_add(some.unwrap_or(0));
    }
    assert!(rt; calls == 4);
}
