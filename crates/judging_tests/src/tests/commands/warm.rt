//! What is reported of histories whose cache was filled before they begin.
use crate::tests::cases::check_cases;
use std::test::Fail;

/// The value v of k was there from the start. It is replaced at 14 and read again at 20. The value x of j was there too. All was worked
/// out by hand.
static TEXTS: &[u8] = b"
judge rejected
^alice 5 6 hit k v
bob 10 14 put k w
carol 20 30 hit k v
dave 40 41 hit j x
^rejected hit key k lines 1
@
explain; all; warm; judge rejected
^alice 5 6 hit k v
bob 10 14 put k w
carol 20 30 hit k v
dave 40 41 hit j x
^rejected hit key k lines 1 2 3, a value was there from the start, read in line 1
2 values were taken as there from the start
fault hit key k lines 1 2 3 late 6, a value was there from the start, read in line 1
the hit of v (line 3) is stale: put v (line 1) ended at 0, before put w (line 2) started at 10, which ended at 14, before the hit started at 20
* 1  65535   0   0  put    v  |
  1  alice   5   6  hit    v   []
* 2  bob    10  14  put    w     []
* 3  carol  20  30  hit    v       []
the put at 0 (line 1) was not recorded: its value was there from the start, read in line 1
@
json; all; warm; judge rejected
^alice 5 6 hit k v
bob 10 14 put k w
carol 20 30 hit k v
dave 40 41 hit j x
^{\"calls\":4,\"puts\":1,\"removals\":0,\"hits\":3,\"misses\":0,\"values-from-start\":2,\"verdict\":\"rejected\",\"kind\":\"hit\",\"key\":\"k\",\"lines\":[1,2,3],\"from-start-lines\":[1],\"fault-count\":1,\"fault-keys\":1,\"calls-of-fault\":[{\"line\":2,\"kind\":\"put\",\"key\":\"k\",\"start\":10,\"end\":14,\"value\":\"w\"},{\"line\":3,\"kind\":\"hit\",\"key\":\"k\",\"start\":20,\"end\":30,\"value\":\"v\"},{\"from-start-line\":1,\"kind\":\"put\",\"key\":\"k\",\"start\":0,\"end\":0,\"value\":\"v\"}],\"faults\":[{\"kind\":\"hit\",\"key\":\"k\",\"lines\":[1,2,3],\"from-start-lines\":[1],\"late\":6}]}
@
# the put that was added is no call
explain; all; warm; least 3; judge too-few
^# first

a 5 6 hit k v
b 7 8 hit k v
^accepted 2 calls
1 values were taken as there from the start
@
json; warm; least 2; judge done
^a 5 6 hit k v
b 7 8 hit k v
^{\"calls\":2,\"puts\":0,\"removals\":0,\"hits\":2,\"misses\":0,\"values-from-start\":1,\"verdict\":\"accepted\"}
@
# the removal ended before the hit, unless each stamp may be wrong by 1
warm; judge rejected
^a 5 6 remove k
b 8 9 hit k v
^rejected hit key k lines 2
0 values were taken as there from the start
@
warm; skew 1; judge done
^a 5 6 remove k
b 8 9 hit k v
^accepted 2 calls
1 values were taken as there from the start
@
skip; judge done
^a 1 2 put k v
bad
b 3 4 hit k v
^accepted 2 calls
1 bad lines were passed over
@
json; skip; least 2; judge too-few
^a 1 2 put k v
bad
^{\"calls\":1,\"puts\":1,\"removals\":0,\"hits\":0,\"misses\":0,\"bad-lines\":1,\"verdict\":\"accepted\"}
";

#[test]
fn what_was_there_from_the_start_is_told(rt: HostRuntime) -> Result<(), Fail> {
    check_cases(rt.alloc(), TEXTS)
}
