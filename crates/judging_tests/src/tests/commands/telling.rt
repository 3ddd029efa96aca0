//! What is reported of histories, of traces, and of what is neither.
use crate::tests::cases::check_cases;
use std::test::Fail;

/// The verdicts were worked out by hand.
static TEXTS: &[u8] = b"
explain; judge done
^^accepted 0 calls
@
explain; judge done
^a 1 4 put k v
b 2 6 hit k v
a 5 8 remove k
^accepted 3 calls
@
judge done
^a 5 - put k v
b 9 12 hit k v
c 1 2 miss k^accepted 3 calls
@
judge rejected
^alice 10 14 put color red
bob 16 21 put color blue
carol 25 30 hit color red
^rejected hit key color lines 1 2 3
@
explain; judge rejected
^alice 10 14 put color red
bob 16 21 put color blue
carol 25 30 hit color red
^rejected hit key color lines 1 2 3
the hit of red (line 3) is stale: put red (line 1) ended at 14, before put blue (line 2) started at 16, which ended at 21, before the hit started at 25
* 1  alice  10  14  put    red   []
* 2  bob    16  21  put    blue    []
* 3  carol  25  30  hit    red       []
@
all; judge rejected
^a 9 3 put q v
b 10 20 hit k w
c 1 2 put k x
c 3 4 put k y
d 6 8 hit k x
^rejected interval key q lines 1
fault interval key q lines 1
fault hit key k lines 3 4 5 late 2
fault hit key k lines 2
@
judge rejected
^# the clock ran back
a 9 3 put %2D -
^rejected interval key %2D lines 2
@
judge rejected
^a 1 10 put k x
b 1 10 put k y
c 11 12 hit k x
c 13 14 hit k y
c 15 16 hit k x
^rejected crossed key k lines 1 2 4 5
@
judge rejected
^a 1 2 put k v 7
b 3 4 hit k v 7
^rejected hit key k lines 1 2
@
explain; judge done
^a 1 2 put k v 7
b 3 4 hit k v 6
^accepted 2 calls
@
judge rejected
^a 1 2 miss x
a 1 2 hit %2D -^rejected hit key %2D lines 2
@
judge rejected
^b 20 21 hit k%20 v

#
a 5 6 put k%20 w
a 1 2 put k%20 v
^rejected hit key k%20 lines 1 4 5
@
judge rejected
^a 1 2 put j v
a 5 6 put k w
b 20 21 hit k v
^rejected hit key k lines 3
@
explain; judge done
^a 1 9 put k v
b 2 8 put k v
c 3 4 hit k v
^accepted 3 calls
@
judge rejected
^a 0 9 put k v
b 0 9 put k v
c 0 9 put k w
d 1 2 hit k w
e 3 4 hit k v
d 5 6 hit k w
^rejected unread key k lines 1 2 3 4 5 6
@
explain; judge undecided
^a 0 9 put k v
b 0 9 put k v
c 0 9 put k w
d 1 2 hit k v
e 3 4 hit k w
d 5 6 hit k v
^undecided 2 hits
@
explain; judge bad-input
^a 1 2 put k v

# bad
a 1 2 get k
^bad line 4: the fourth word must be put, hit, miss or remove
";

#[test]
fn each_text_has_its_verdict(rt: HostRuntime) -> Result<(), Fail> {
    check_cases(rt.alloc(), TEXTS)
}

/// Traces are those of texts.
static TRACES: &[u8] = b"
# accepted
trace; explain; check done
^b 2 6 hit k v
a 1 4 put k v
a 5 8 remove k
b 7 - put %2D - 9
a 10 11 hit %2D - 3
a 10 11 miss k
^accepted 6 calls
@
# the certificate has a hit before its put: positions for lines, and numbers for names
trace; turn; explain; check rejected
^a 1 4 put k v
b 2 6 hit k v
^rejected WrongHit place 0
the hit of v (position 1) is wrong at place 0 of the certificate: no write of its key stands before it
  0  0  1  4  put    v  [=]
* 1  1  2  6  hit    v   [=]
@
# all calls
trace; show done
^b 2 6 hit k v
a 1 4 put k v
a 5 8 remove k
b 7 - put %2D - 9
a 10 11 hit %2D - 3
a 10 11 miss k
^c0 2 6 hit k v
c1 1 4 put k v
c1 5 8 remove k
c0 7 - put %2D - 9
c1 10 11 hit %2D - 3
c1 10 11 miss k
@
# the calls of a key
trace; show-key - done
^b 2 6 hit k v
a 1 4 put k v
a 5 8 remove k
b 7 - put %2D - 9
a 10 11 hit %2D - 3
a 10 11 miss k
^c0 7 - put %2D - 9
c1 10 11 hit %2D - 3
@
# no trace
show bad-input; explain; check bad-input
^KGTRACE3^bad trace BadMagic at 7
";

#[test]
fn traces_are_checked_explained_and_shown(rt: HostRuntime) -> Result<(), Fail> {
    check_cases(rt.alloc(), TRACES)
}
