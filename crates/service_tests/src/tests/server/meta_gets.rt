//! What a meta get tells of an item, and which client wins it. The replies are those of memcached 1.6.18.
use super::scripted::play;
use std::test::Fail;

static VIVIFIED: &[u8] = b"
    open 3; at 1000 0
    mg ax none not found
    mg-N ax 1030 1 none found W
    mg-N bx 1030 2 none found W
    mg-N ax 1031 3 0 1 1030 - won found Z
    mg ax 0 1 1030 - won found Z
    mg-RT ax 1060 1090 0 1 1030 - won found Z
    mg ax 0 1 1090 - won found Z
    ms ax set 1 0 4 never new stored
    mg ax 0 4 never new found
    mg-N ax 1030 5 0 4 never new found
    mg bx 0 2 1030 - won found Z
    at 1000 3
    mg bx none not found
    mg-N bx 1050 6 none found W
    mg bx 0 6 1050 - won found Z
";

#[test]
fn the_first_to_miss_wins_until_a_store(rt: HostRuntime) -> Result<(), Fail> {
    play(rt.alloc(), VIVIFIED)
}

static TAKEN_AWAY: &[u8] = b"
    open 3; at 1000 0
    mg-N ax 1030 1 none found W
    md ax any deleted
    ms ax set 1 0 2 never new not found
    mg-N ax 1030 3 none found W
    md-I ax any 4 stays invalidated
    ms ax set 3 0 5 never new exists
    mg ax 0 4 1030 - stale found X W
    mg ax 0 4 1030 - stale won found X Z
";

#[test]
fn a_store_of_a_won_item_that_was_taken_away_is_refused(rt: HostRuntime) -> Result<(), Fail> {
    play(rt.alloc(), TAKEN_AWAY)
}

static DUE: &[u8] = b"
    open 3; at 1000 0
    ms ax set any 5 1 1030 x stored
    mg-R ax 1020 5 1 1030 x found
    mg-R ax 1030 5 1 1030 x found
    mg-R ax 1031 5 1 1030 x found W
    mg-R ax 1031 5 1 1030 x won found Z
    mg ax 5 1 1030 x won found Z
    mg-TR ax 1060 1031 5 1 1030 x won found Z
    ms ax set any 0 2 1030 y stored
    mg-RT ax 1031 1060 0 2 1030 y found W
    mg ax 0 2 1060 y won found Z
    ms ax set any 0 3 1030 z stored
    mg-TR ax 1060 1031 0 3 1030 z found
    mg-R ax 1061 0 3 1060 z found W
    mg-R ax 1061 0 3 1060 z won found Z
    ms ax set any 0 4 never n stored
    mg-R ax 4000000000 0 4 never n found
    mg-T ax 1005 0 4 never n found
    mg-TR ax never 4000000000 0 4 1005 n found
    mg ax 0 4 never n found
";

#[test]
fn the_first_to_ask_for_an_item_that_ends_soon_wins(rt: HostRuntime) -> Result<(), Fail> {
    play(rt.alloc(), DUE)
}

static STALE: &[u8] = b"
    open 3; at 1000 0
    ms ax set any 7 1 1100 ok stored
    md-I ax 9 2 to 1030 exists
    mg ax 7 1 1100 ok found
    md-I ax 1 3 to 1030 invalidated
    mg ax 7 3 1030 ok stale found X W
    mg ax 7 3 1030 ok stale won found X Z
    mg-T ax 1090 7 3 1030 ok stale won found X Z
    mg ax 7 3 1090 ok stale won found X Z
    md-I ax any 4 stays invalidated
    mg-T ax never 7 4 1090 ok stale found X W
    mg ax 7 4 never ok stale won found X Z
    ms ax set any 0 5 never x stored
    mg ax 0 5 never x found
    md-I ax any 6 stays invalidated
    ms ax append any 9 7 1001 y stored
    mg ax 0 7 never xy found
";

#[test]
fn a_stale_item_is_told_stale_and_one_client_wins(rt: HostRuntime) -> Result<(), Fail> {
    play(rt.alloc(), STALE)
}
