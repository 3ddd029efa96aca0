//! Answers as JSON objects.
use crate::tests::cases::check_cases;
use std::test::Fail;

/// The verdicts were worked out by hand.
static TEXTS: &[u8] = b"
json; explain; judge done
^^{\"calls\":0,\"puts\":0,\"removals\":0,\"hits\":0,\"misses\":0,\"verdict\":\"accepted\"}
@
json; explain; judge done
^a 1 4 put k v
b 2 6 hit k v
a 5 8 remove k
^{\"calls\":3,\"puts\":1,\"removals\":1,\"hits\":1,\"misses\":0,\"verdict\":\"accepted\"}
@
json; judge rejected
^alice 10 14 put color red
bob 16 21 put color blue
carol 25 30 hit color red
^{\"calls\":3,\"puts\":2,\"removals\":0,\"hits\":1,\"misses\":0,\"verdict\":\"rejected\",\"kind\":\"hit\",\"key\":\"color\",\"lines\":[1,2,3],\"fault-count\":1,\"fault-keys\":1,\"calls-of-fault\":[{\"line\":1,\"kind\":\"put\",\"key\":\"color\",\"start\":10,\"end\":14,\"value\":\"red\"},{\"line\":2,\"kind\":\"put\",\"key\":\"color\",\"start\":16,\"end\":21,\"value\":\"blue\"},{\"line\":3,\"kind\":\"hit\",\"key\":\"color\",\"start\":25,\"end\":30,\"value\":\"red\"}]}
@
# with its explanation, the line feeds of which are escaped
json; explain; judge rejected
^alice 10 14 put color red
bob 16 21 put color blue
carol 25 30 hit color red
^{\"calls\":3,\"puts\":2,\"removals\":0,\"hits\":1,\"misses\":0,\"verdict\":\"rejected\",\"kind\":\"hit\",\"key\":\"color\",\"lines\":[1,2,3],\"fault-count\":1,\"fault-keys\":1,\"calls-of-fault\":[{\"line\":1,\"kind\":\"put\",\"key\":\"color\",\"start\":10,\"end\":14,\"value\":\"red\"},{\"line\":2,\"kind\":\"put\",\"key\":\"color\",\"start\":16,\"end\":21,\"value\":\"blue\"},{\"line\":3,\"kind\":\"hit\",\"key\":\"color\",\"start\":25,\"end\":30,\"value\":\"red\"}],\"explanation\":\"the hit of red (line 3) is stale: put red (line 1) ended at 14, before put blue (line 2) started at 16, which ended at 21, before the hit started at 25\\n* 1  alice  10  14  put    red   []\\n* 2  bob    16  21  put    blue    []\\n* 3  carol  25  30  hit    red       []\\n\"}
@
# three faults at two keys, of which the second hit is of a value that was never put
json; all; judge rejected
^a 9 3 remove q
b 10 20 hit k w
c 1 2 put k x
c 3 4 put k y
d 6 8 hit k x
^{\"calls\":5,\"puts\":2,\"removals\":1,\"hits\":2,\"misses\":0,\"verdict\":\"rejected\",\"kind\":\"interval\",\"key\":\"q\",\"lines\":[1],\"fault-count\":3,\"fault-keys\":2,\"calls-of-fault\":[{\"line\":1,\"kind\":\"remove\",\"key\":\"q\",\"start\":9,\"end\":3}],\"faults\":[{\"kind\":\"interval\",\"key\":\"q\",\"lines\":[1]},{\"kind\":\"hit\",\"key\":\"k\",\"lines\":[3,4,5],\"late\":2},{\"kind\":\"hit\",\"key\":\"k\",\"lines\":[2]}]}
@
# a quotation mark and a backslash stand in a word as they are, and are escaped in the object
json; judge rejected
^# the clock ran back
a 9 3 put q\"\\%20 v
^{\"calls\":1,\"puts\":1,\"removals\":0,\"hits\":0,\"misses\":0,\"verdict\":\"rejected\",\"kind\":\"interval\",\"key\":\"q\\\"\\\\%20\",\"lines\":[2],\"fault-count\":1,\"fault-keys\":1,\"calls-of-fault\":[{\"line\":2,\"kind\":\"put\",\"key\":\"q\\\"\\\\%20\",\"start\":9,\"end\":3,\"value\":\"v\"}]}
@
json; judge rejected
^a 1 10 put k x
b 1 10 put k y
c 11 12 hit k x
c 13 14 hit k y
c 15 16 hit k x
^{\"calls\":5,\"puts\":2,\"removals\":0,\"hits\":3,\"misses\":0,\"verdict\":\"rejected\",\"kind\":\"crossed\",\"key\":\"k\",\"lines\":[1,2,4,5],\"fault-count\":1,\"fault-keys\":1,\"calls-of-fault\":[{\"line\":1,\"kind\":\"put\",\"key\":\"k\",\"start\":1,\"end\":10,\"value\":\"x\"},{\"line\":2,\"kind\":\"put\",\"key\":\"k\",\"start\":1,\"end\":10,\"value\":\"y\"},{\"line\":4,\"kind\":\"hit\",\"key\":\"k\",\"start\":13,\"end\":14,\"value\":\"y\"},{\"line\":5,\"kind\":\"hit\",\"key\":\"k\",\"start\":15,\"end\":16,\"value\":\"x\"}]}
@
json; explain; judge done
^a 1 9 put k v
b 2 8 put k v
c 3 4 hit k v
^{\"calls\":3,\"puts\":2,\"removals\":0,\"hits\":1,\"misses\":0,\"verdict\":\"accepted\"}
@
json; explain; judge undecided
^a 0 9 put k v
b 0 9 put k v
c 0 9 put k w
d 1 2 hit k v
e 3 4 hit k w
d 5 6 hit k v
^{\"calls\":6,\"puts\":3,\"removals\":0,\"hits\":3,\"misses\":0,\"verdict\":\"undecided\",\"undecided-hits\":2}
@
json; explain; judge bad-input
^a 1 2 put k v

# bad
a 1 2 get k
^{\"verdict\":\"bad line\",\"line\":4,\"cause\":\"the fourth word must be put, hit, miss or remove\"}
@
json; judge bad-input
^KGTRACE2^{\"verdict\":\"bad line\",\"line\":1,\"cause\":\"a line has five to seven words of printable ASCII, separated by single spaces: CALLER START END put|hit|miss|remove KEY [VALUE [TIME]]\"}
";

#[test]
fn each_text_has_its_object(rt: HostRuntime) -> Result<(), Fail> {
    check_cases(rt.alloc(), TEXTS)
}

/// Traces are those of texts.
static TRACES: &[u8] = b"
# accepted
trace; json; explain; check done
^a 1 4 put k v
b 2 6 hit k v
^{\"calls\":2,\"verdict\":\"accepted\"}
@
# the certificate has a hit before its put
trace; turn; json; check rejected
^a 1 4 put k v
b 2 6 hit k v
^{\"calls\":2,\"verdict\":\"rejected\",\"fault\":\"WrongHit\",\"place\":0}
@
# the same with its explanation
trace; turn; json; explain; check rejected
^a 1 4 put k v
b 2 6 hit k v
^{\"calls\":2,\"verdict\":\"rejected\",\"fault\":\"WrongHit\",\"place\":0,\"explanation\":\"the hit of v (position 1) is wrong at place 0 of the certificate: no write of its key stands before it\\n  0  0  1  4  put    v  [=]\\n* 1  1  2  6  hit    v   [=]\\n\"}
@
# another magic
json; explain; check bad-input
^KGTRACE3^{\"verdict\":\"bad trace\",\"fault\":\"BadMagic\",\"at\":7}
@
# the end is within the number of calls
json; explain; check bad-input
^KGTRACE2\0\0^{\"verdict\":\"bad trace\",\"fault\":\"Truncated\",\"at\":10}
";

#[test]
fn each_trace_has_its_object(rt: HostRuntime) -> Result<(), Fail> {
    check_cases(rt.alloc(), TRACES)
}
