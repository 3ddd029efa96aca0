//! Texts that are judged as their calls come, each with what comes of it.
use crate::tests::cases::check_cases;
use std::test::Fail;

/// Each is judged with a window, by pieces of one call.
static ROWS: &[u8] = b"
stream 0 1 accepted
^^@
# a hit reads a value that was replaced, and whose put was forgotten
stream 0 1 rejected
^a 0 1 put k v
a 2 3 put k w
a 4 5 hit k w
a 6 7 hit k w
a 8 9 hit k v
^@
# it reads the value that stands
stream 0 1 accepted
^a 0 1 put k v
a 2 3 put k w
a 4 5 hit k w
a 6 7 hit k w
a 8 9 hit k w
^@
# a write that a later hit reads is kept, however old it is
stream 0 1 accepted
^a 0 1 put k v
a 2 3 miss j
a 40 50 miss j
a 60 70 miss j
a 80 90 hit k v
^@
# a stale hit of a key whose writes were forgotten but one is not taken as there from the start
warm; stream 0 1 rejected
^a 0 1 put k v
a 2 3 put k w
a 4 5 hit k w
a 6 7 hit k w
a 8 9 hit k u
^@
warm; stream 0 1 rejected
^a 0 1 put k v
a 2 3 remove k
a 4 5 miss k
a 6 7 miss k
a 8 9 hit k v
^@
# a value that was there from the start is read once and again, until it is replaced
warm; stream 0 1 accepted
^a 1 2 hit k v
a 3 4 hit k v
a 5 6 miss j
a 7 8 hit k v
a 9 10 put k w
^@
warm; stream 0 1 rejected
^a 1 2 hit k v
a 3 4 hit k v
a 5 6 put k w
a 7 8 hit k w
a 9 10 hit k v
^@
# another value can't have been there too
warm; stream 0 1 rejected
^a 1 2 hit k v
a 3 4 hit k v
a 5 6 miss j
a 7 8 hit k u
^@
# a key whose first call comes late may have been there from the start
warm; stream 0 1 accepted
^a 1 2 put j v
a 3 4 hit j v
a 5 6 put j w
a 7 8 hit k u
^@
# a hit stands before the line of its put, which began before the hit ended: it read that put, and the other value was there before
warm; stream 1000 1 accepted
^a 13 14 hit k v
b 10 150 put k v
c 11 200 hit k w
^@
# the same with the lines in order of the ends, and the value read twice
warm; stream 100 1 accepted
^a 8 14 hit k v
a 9 15 hit k v
b 5 17 put k v
c 12 24 hit k w
^@
# the same without a put: two values can't both have been there
warm; stream 1000 1 rejected
^a 13 14 hit k v
b 10 150 miss j
c 11 200 hit k w
^@
# a value that was written over is read again, and the line of its put comes late: the put is no value of the past
warm; stream 30 1 rejected
^a 20 21 hit k v
b 10 30 put k v
c 40 41 put k w
a 60 61 hit k v
^@
# it was read before its put started, and that put's line comes in the next piece
warm; stream 2 1 rejected
^a 4 5 hit k v
b 6 9 put k v
^@
# a hit that ended before the stamp can have read no put that is still to come: it is taken as there from the start, and put again
warm; stream 10 1 accepted
^a 1 2 hit k v
a 40 41 miss j
a 80 81 put k v
a 90 91 hit k v
^@
# such a hit is judged with the piece that decides it: a write of its key ended before
warm; stream 10 1 rejected
^a 1 2 put k w
a 4 5 hit k v
a 40 41 miss j
a 80 81 miss j
^@
# hits wait at the end of each piece, of a key that was written since, and of one that was not
warm; stream 3 1 accepted
^a 1 2 hit k v
a 3 4 hit j x
a 5 6 put k w
a 7 8 hit k w
a 9 10 hit j x
a 11 12 hit k w
^@
# without --warm a hit before the line of its put waits too
stream 1000 1 accepted
^a 13 14 hit k v
b 10 150 put k v
c 160 161 hit k v
^@
stream 1000 1 rejected
^a 13 14 hit k v
b 10 150 put k w
c 160 161 hit k w
^@
# a call starts before the last end
stream 0 1 late 3
^a 0 1 put k v
a 2 9 put k w
a 8 10 hit k w
^@
stream 1 1 accepted
^a 0 1 put k v
a 2 9 put k w
a 8 10 hit k w
^@
# with a skew each call starts earlier and ends later
skew 1; stream 1 1 late 3
^a 0 1 put k v
a 2 3 put k w
a 3 4 hit k w
^";

#[test]
fn rows_are_judged_with_a_window(rt: HostRuntime) -> Result<(), Fail> {
    check_cases(rt.alloc(), ROWS)
}

/// Of two bad lines of one piece the first is told: a call that starts too early stands before a line that is no call, or after it.
static BAD: &[u8] = b"
stream 0 2 late 3
^a 10 20 put k v
a 30 40 put k w
a 5 6 miss k
bad
^@
stream 0 2 fault
^a 10 20 put k v
a 30 40 put k w
bad
a 5 6 miss k
^";

#[test]
fn the_first_bad_line_of_a_piece_is_told(rt: HostRuntime) -> Result<(), Fail> {
    check_cases(rt.alloc(), BAD)
}

/// As many misses as leave room for one call in a piece of a text, and after them the hit of a value whose put stands on the next line.
static PARTED: &[u8] = b"
fill-line 65535 p 1 1 miss pad
line a 13 14 hit k v; line b 10 150 put k v; line c 11 200 hit k w
warm; window 1000; whole accepted
";

#[test]
fn a_put_in_the_next_piece_is_no_value_of_the_past(rt: HostRuntime) -> Result<(), Fail> {
    check_cases(rt.alloc(), PARTED)
}

/// A hit of the last piece that may read a put still to come is counted, though it is not judged.
static RECENT: &[u8] = b"
count 100 2
^a 0 1 put k v
a 2 3 put k w
a 4 5 hit k v
a 6 200 hit j u
a 201 202 miss k
^{\"calls\":4,\"puts\":2,\"removals\":0,\"hits\":2,\"misses\":0,\"calls-forgotten\":1,\"verdict\":\"rejected\"";

#[test]
fn recent_hits_of_the_last_piece_are_counted(rt: HostRuntime) -> Result<(), Fail> {
    check_cases(rt.alloc(), RECENT)
}
