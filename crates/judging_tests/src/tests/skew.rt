//! Histories whose clocks do not agree: what is found once their calls are widened.
use crate::tests::made::play;
use std::test::Fail;

static WIDENED: &[u8] = b"
    # The hit of v starts 5 after the put of w has ended, which starts 10 after the put of v has ended.
    new; 0 0 10 put k v; 1 20 30 put k w; 2 35 40 hit k v
    widen 0; find hit
    widen 2; find hit
    new; 0 0 10 put k v; 1 20 30 put k w; 2 35 40 hit k v
    widen 3; find accepted
    # The value expires at 10, and is asked for at 12.
    new; 0 0 1 put k v 10; 1 20 21 hit k v 12
    widen 0; find hit
    widen 1; find hit
    new; 0 0 1 put k v 10; 1 20 21 hit k v 12
    widen 2; find accepted
    # The call ends 2 before it starts.
    new; 0 5 3 put k v
    widen 0; find interval
    widen 1; find accepted
    # Each put has ended 9 before the other one's value is read.
    new; 0 0 1 put k v; 1 0 1 put k w; 2 10 11 hit k v; 3 10 11 hit k w
    widen 4; find crossed
    new; 0 0 1 put k v; 1 0 1 put k w; 2 10 11 hit k v; 3 10 11 hit k w
    widen 5; find accepted
";

#[test]
fn what_is_found_once_calls_are_widened(rt: HostRuntime) -> Result<(), Fail> {
    play(rt.alloc(), WIDENED)
}

/// Stamps that are near the ends of what a stamp can be.
static AT_THE_ENDS: &[u8] = b"
    new; 3 4 18446744073709551611 put k v 18446744073709551610
    widen 5; show 0 3 0 18446744073709551615 put k v 18446744073709551615
    new; 3 4 18446744073709551611 put k v 18446744073709551610
    widen 3; show 0 3 1 18446744073709551614 put k v 18446744073709551613
";

#[test]
fn stamps_stay_within_their_ends(rt: HostRuntime) -> Result<(), Fail> {
    play(rt.alloc(), AT_THE_ENDS)
}
