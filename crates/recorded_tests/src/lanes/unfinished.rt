//! Moves that are begun and never finished: the calls of their lane go on, and are accepted.
use super::worlds::play_text;
use std::test::Fail;

// Ten keys of ten different ones of sixteen sets are put; the last is in memory then, and the others are written to the log. As many
// moves begin as may, and one more is tried. After that each key is got, and some are replaced or removed and got again.
static UNFINISHED: &[u8] = b"
    world 1 16 1
    put 0 ax 1; put 0 bx 1; put 0 cx 1; put 0 dx 1; put 0 ex 1; put 0 fx 1; put 0 gx 1; put 0 hx 1; put 0 ix 1
    put 0 jx 1; flush 0; flush 0; move 0; move 0; move 0; move 0; move 0; move 0; move 0; move 0; move 0; get 0 ax
    get 0 bx; get 0 cx; get 0 dx; get 0 ex; get 0 fx; get 0 gx; get 0 hx; get 0 ix; get 0 jx; put 0 ax 2
    remove 0 bx; get 0 ax; get 0 bx; get 0 cx; get 0 jx; move 0
    play bpebpebpebpebpebpebpebpebpebpeswjjjjjjjjybHebHebHebHebHebHebHebHebHebHebpebrebHebmebHebHey accepted
    count 26; call 0 by 0 1 3 ax put 1; call 1 by 0 4 6 bx put 1; call 2 by 0 7 9 cx put 1
    call 3 by 0 10 12 dx put 1; call 4 by 0 13 15 ex put 1; call 5 by 0 16 18 fx put 1; call 6 by 0 19 21 gx put 1
    call 7 by 0 22 24 hx put 1; call 8 by 0 25 27 ix put 1; call 9 by 0 28 30 jx put 1
    call 10 by 0 31 33 ax hit 1 0; call 11 by 0 34 36 bx hit 1 0; call 12 by 0 37 39 cx hit 1 0
    call 13 by 0 40 42 dx hit 1 0; call 14 by 0 43 45 ex hit 1 0; call 15 by 0 46 48 fx hit 1 0
    call 16 by 0 49 51 gx hit 1 0; call 17 by 0 52 54 hx hit 1 0; call 18 by 0 55 57 ix hit 1 0
    call 19 by 0 58 60 jx hit 1 0; call 20 by 0 61 63 ax put 2; call 21 by 0 64 66 bx remove
    call 22 by 0 67 69 ax hit 2 0; call 23 by 0 70 72 bx miss; call 24 by 0 73 75 cx hit 1 0
    call 25 by 0 76 78 jx hit 1 0; order 0 1 2 3 4 5 6 7 8 9 10 11 12 13 14 15 16 17 18 19 20 21 22 23 24 25
";

#[test]
fn a_lane_goes_on_beside_moves_that_are_never_finished(rt: HostRuntime) -> Result<(), Fail> {
    play_text(&rt, rt.alloc(), UNFINISHED)
}
