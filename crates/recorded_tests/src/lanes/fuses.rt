//! Each call of a lane's device refused, alone and with all after it, over memory and over a file: what is answered then, and
//! that the history and its certificate are accepted all the same.
use super::worlds::play_text;
use std::test::Fail;

// Two puts, of which the second pushes the first into the log; a segment that is written; a move; and a get. Four calls of the
// device come of it, so in the last lines none is refused.
static ONE_MOVE: &[u8] = b"
    world 1 1 1
    put 0 ax 1; put 0 bx 2; flush 0; flush 0; move 0; commit 0 0 1; get 0 ax
    refuse 1; play bpebpeslfSbme accepted; count 3; play-file bpebpeslfSbme accepted; count 3
    refuse-from 1; play bpebpeslfSbme accepted; count 3; play-file bpebpeslfSbme accepted; count 3
    refuse 2; play bpebpeswLSbme accepted; count 3; play-file bpebpeswLSbme accepted; count 3
    refuse-from 2; play bpebpeswLSbme accepted; count 3; play-file bpebpeswLSbme accepted; count 3
    refuse 3; play bpebpeswjFbme accepted; count 3; play-file bpebpeswjFbme accepted; count 3
    refuse-from 3; play bpebpeswjFbme accepted; count 3; play-file bpebpeswjFbme accepted; count 3
    refuse 4; play bpebpeswjWbue accepted; count 3; play-file bpebpeswjWbue accepted; count 3
    refuse-from 4; play bpebpeswjWbue accepted; count 3; play-file bpebpeswjWbue accepted; count 3
    refuse 5; play bpebpeswjWbhe accepted; count 3; play-file bpebpeswjWbhe accepted; count 3
    refuse-from 5; play bpebpeswjWbhe accepted; count 3; play-file bpebpeswjWbhe accepted; count 3
";

#[test]
fn each_refused_call_is_told_and_accepted(rt: HostRuntime) -> Result<(), Fail> {
    play_text(&rt, rt.alloc(), ONE_MOVE)
}

// A key is removed in flight; two moves of a lane are in flight; and a segment is filled that has the name of one in flight. None makes
// twelve calls of its device.
static JUDGED: &[u8] = b"
    world 1 1 1
    put 0 ax 1; put 0 bx 2; flush 0; flush 0; move 0; begin remove 0 ax; act 0; commit 0 0 1; begin get 0 ax
    end 0; begin get 0 ax; act 0; move 3
    whichever 11 accepted
    refuse 12; play bpebpeswjbrW-ebm- accepted; play-file bpebpeswjbrW-ebm- accepted
    refuse-from 12; play bpebpeswjbrW-ebm- accepted; play-file bpebpeswjbrW-ebm- accepted

    world 1 2 1
    put 0 ax 1; put 0 bx 2; put 0 cx 3; flush 0; flush 0; move 0; move 0; move 0; commit 0 0 2; commit 0 0 1
    get 0 ax; get 0 bx; move 0
    whichever 11 accepted
    refuse 12; play bpebpebpeswjjyWWbhebhef accepted; play-file bpebpebpeswjjyWWbhebhef accepted
    refuse-from 12; play bpebpebpeswjjyWWbhebhef accepted; play-file bpebpebpeswjjyWWbhebhef accepted

    world 1 1 1
    put 0 a 1; put 0 bx 2; flush 0; flush 0; move 0; put 0 c 3; move 0; flush 0; flush 0; remove 0 bx; move 0
    put 0 dx 4; flush 0; flush 0; remove 0 c; move 0; put 0 ex 5; flush 0; flush 0; remove 0 dx; move 0
    put 0 fx 6; commit 0 0 1; get 0 ex; get 0 a
    whichever 11 accepted
    refuse 12; play bpebpeswjbpefswbrefbpeswbrefbpeswbrefbpeWbHebhe accepted; play-file bpebpeswjbpefswbrefbpeswbrefbpeswbrefbpeWbHebhe accepted
    refuse-from 12; play bpebpeswjbpefswbrefbpeswbrefbpeswbrefbpeWbHebhe accepted; play-file bpebpeswjbpefswbrefbpeswbrefbpeswbrefbpeWbHebhe accepted
";

#[test]
fn whichever_call_is_refused_the_history_is_accepted(rt: HostRuntime) -> Result<(), Fail> {
    play_text(&rt, rt.alloc(), JUDGED)
}
