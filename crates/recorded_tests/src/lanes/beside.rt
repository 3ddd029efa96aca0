//! Several moves of a lane in flight at once, and calls of keys of their sets between their steps.
use super::worlds::play_text;
use std::test::Fail;

// Two workers of one lane, whose moves of different sets are in flight at once and end in another order than they began;
// some are given up, plans are stale or bad, and meanwhile keys of all these sets are put, removed and got. Of four sets the
// keys `ax` and `ex` are of one, and `bx` and `fx`, `cx` and `gx`, `dx` and `hx`. The replies are what plain lists of the lane's
// live records answer: its object in memory, the log's records, and those that its sets show.
static MOVES: &[u8] = b"
    world 1 4 1
    put 0 ax 1; put 0 bx 2; put 0 cx 3; put 0 dx 4; put 0 ex 5; flush 0; flush 0
    # Two moves are in flight, and of the first the only item is struck.
    move 0; move 0; get 0 ax; get 0 bx; put 0 ax 9; commit 0 0 2; get 0 bx
    # Then three, and no set is left of which a move could begin.
    move 0; move 0; move 0; abort 0 3; get 0 cx; remove 0 dx; commit 0 0 4; get 0 dx; commit 0 0 1; get 0 ax
    move 0; commit 0 1 5; commit 0 0 5; commit 0 0 3; abort 0 5; get 0 cx; move 0
    # Another segment, with records of sets that have some on their pages.
    put 0 fx 6; put 0 gx 7; put 0 hx 8; flush 0; flush 0; move 0; move 0; move 0; move 0; get 0 ax; get 0 fx
    remove 0 bx; put 0 fx 1; commit 0 1 8; get 0 cx; get 0 gx; commit 0 1 6; get 0 ex; get 0 ax; abort 0 7
    get 0 fx; get 0 bx; move 0; get 0 hx
    play bpebpebpebpebpeswjjbHebHebpeWbhejjyAbHebreWbmeWbHejBWSSbhefbpebpebpeswjjjybHebHebrebpeWbmebheWbhebmeAbHebmefbHe accepted
    count 28; call 0 by 0 1 3 ax put 1; call 1 by 0 4 6 bx put 2; call 2 by 0 7 9 cx put 3
    call 3 by 0 10 12 dx put 4; call 4 by 0 13 15 ex put 5; call 5 by 0 16 18 ax hit 1 0
    call 6 by 0 19 21 bx hit 2 0; call 7 by 0 22 24 ax put 9; call 8 by 0 25 27 bx hit 2 0
    call 9 by 0 28 30 cx hit 3 0; call 10 by 0 31 33 dx remove; call 11 by 0 34 36 dx miss
    call 12 by 0 37 39 ax hit 9 0; call 13 by 0 40 42 cx hit 3 0; call 14 by 0 43 45 fx put 6
    call 15 by 0 46 48 gx put 7; call 16 by 0 49 51 hx put 8; call 17 by 0 52 54 ax hit 9 0
    call 18 by 0 55 57 fx hit 6 0; call 19 by 0 58 60 bx remove; call 20 by 0 61 63 fx put 1
    call 21 by 0 64 66 cx miss; call 22 by 0 67 69 gx hit 7 0; call 23 by 0 70 72 ex hit 5 0
    call 24 by 0 73 75 ax miss; call 25 by 0 76 78 fx hit 1 0; call 26 by 0 79 81 bx miss
    call 27 by 0 82 84 hx hit 8 0; order 0 1 2 3 4 5 6 7 8 9 10 11 12 13 14 15 16 17 18 19 20 21 22 23 24 25 26 27
";

#[test]
fn several_moves_are_answered_as_on_plain_lists(rt: HostRuntime) -> Result<(), Fail> {
    play_text(&rt, rt.alloc(), MOVES)
}
