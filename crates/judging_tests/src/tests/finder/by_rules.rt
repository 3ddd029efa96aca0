//! Histories whose keys are decided by several rules.
use crate::tests::made::play;
use std::test::Fail;

/// Histories of one key, each of which has a certificate by one of the five rules and by none of the others, in the order of
/// the rules.
static BY_RULE: &[u8] = b"
    # By the least growth of the zone.
    new; 0 1 2 put k v2 3; 0 1 3 put k v2 2; 0 5 5 hit k v2 2; 0 5 5 hit k v2 0
    find accepted
    # By the latest start.
    new; 0 1 5 put k v1 2; 0 2 5 put k v1 2; 0 0 2 put k v1; 0 7 7 hit k v1 2; 0 0 1 hit k v1 0
    find accepted
    # By the earliest start.
    new; 0 0 7 put k v2; 0 4 6 put k v1; 0 3 3 put k v2; 0 6 6 hit k v2 0; 0 1 4 hit k v1 0
    find accepted
    # By the latest start at or before the hit's.
    new; 0 2 4 put k v1; 0 3 3 put k v2 2; 0 1 6 put k v1; 0 0 2 hit k v1 0; 0 4 7 hit k v1 0
    find accepted
    # By the latest start of those that ended before the hit.
    new; 0 6 6 put k v2 2; 0 0 8 put k v1 2; 0 1 6 put k v1; 0 2 4 hit k v1 1; 0 7 8 hit k v1 1
    find accepted
";

#[test]
fn each_rule_finds_what_no_other_does(rt: HostRuntime) -> Result<(), Fail> {
    play(rt.alloc(), BY_RULE)
}

/// Histories whose keys are each decided by another one of those rules.
static BY_KEYS: &[u8] = b"
    new
    0 1 2 put k0 v2 3; 0 1 3 put k0 v2 2; 0 5 5 hit k0 v2 2; 0 5 5 hit k0 v2 0
    0 1 5 put k1 v1 2; 0 2 5 put k1 v1 2; 0 0 2 put k1 v1; 0 7 7 hit k1 v1 2; 0 0 1 hit k1 v1 0
    find accepted
    new
    0 6 6 put k0 v2 2; 0 0 8 put k0 v1 2; 0 1 6 put k0 v1; 0 2 4 hit k0 v1 1; 0 7 8 hit k0 v1 1
    0 0 7 put k1 v2; 0 4 6 put k1 v1; 0 3 3 put k1 v2; 0 6 6 hit k1 v2 0; 0 1 4 hit k1 v1 0
    find accepted
    new
    0 1 2 put k0 v2 3; 0 1 3 put k0 v2 2; 0 5 5 hit k0 v2 2; 0 5 5 hit k0 v2 0
    0 1 5 put k1 v1 2; 0 2 5 put k1 v1 2; 0 0 2 put k1 v1; 0 7 7 hit k1 v1 2; 0 0 1 hit k1 v1 0
    0 0 7 put k2 v2; 0 4 6 put k2 v1; 0 3 3 put k2 v2; 0 6 6 hit k2 v2 0; 0 1 4 hit k2 v1 0
    0 2 4 put k3 v1; 0 3 3 put k3 v2 2; 0 1 6 put k3 v1; 0 0 2 hit k3 v1 0; 0 4 7 hit k3 v1 0
    0 6 6 put k4 v2 2; 0 0 8 put k4 v1 2; 0 1 6 put k4 v1; 0 2 4 hit k4 v1 1; 0 7 8 hit k4 v1 1
    find accepted
";

#[test]
fn keys_are_decided_by_rules_of_their_own(rt: HostRuntime) -> Result<(), Fail> {
    play(rt.alloc(), BY_KEYS)
}

/// Beside those keys one that has an order, which no rule finds: each takes one of the equal puts for both its hits. The hits that
/// are named are those of all keys that several puts fit, not those of the one key alone.
static STUCK: &[u8] = b"
    new
    0 1 2 put k0 v2 3; 0 1 3 put k0 v2 2; 0 5 5 hit k0 v2 2; 0 5 5 hit k0 v2 0
    0 1 5 put k1 v1 2; 0 2 5 put k1 v1 2; 0 0 2 put k1 v1; 0 7 7 hit k1 v1 2; 0 0 1 hit k1 v1 0
    0 0 9 put k2 v1; 0 0 9 put k2 v1; 0 0 9 put k2 v2; 0 1 2 hit k2 v1; 0 3 4 hit k2 v2; 0 5 6 hit k2 v1
    0 0 7 put k3 v2; 0 4 6 put k3 v1; 0 3 3 put k3 v2; 0 6 6 hit k3 v2 0; 0 1 4 hit k3 v1 0
    0 2 4 put k4 v1; 0 3 3 put k4 v2 2; 0 1 6 put k4 v1; 0 0 2 hit k4 v1 0; 0 4 7 hit k4 v1 0
    0 6 6 put k5 v2 2; 0 0 8 put k5 v1 2; 0 1 6 put k5 v1; 0 2 4 hit k5 v1 1; 0 7 8 hit k5 v1 1
    find-at undecided 3 8 12 14 18 23 24 28 29
";

#[test]
fn one_key_that_no_rule_decides_leaves_all_undecided(rt: HostRuntime) -> Result<(), Fail> {
    play(rt.alloc(), STUCK)
}

/// A long history of ten keys, of which no two neighbours are decided by one rule, in rounds at whose end each key is removed.
static ROUND: &[u8] = b"
    new
    0 1 2 put k0 v2 3; 0 1 3 put k0 v2 2; 0 5 5 hit k0 v2 2; 0 5 5 hit k0 v2 0; 0 9 9 remove k0
    0 1 5 put k1 v1 2; 0 2 5 put k1 v1 2; 0 0 2 put k1 v1; 0 7 7 hit k1 v1 2; 0 0 1 hit k1 v1 0; 0 9 9 remove k1
    0 0 7 put k2 v2; 0 4 6 put k2 v1; 0 3 3 put k2 v2; 0 6 6 hit k2 v2 0; 0 1 4 hit k2 v1 0; 0 9 9 remove k2
    0 2 4 put k3 v1; 0 3 3 put k3 v2 2; 0 1 6 put k3 v1; 0 0 2 hit k3 v1 0; 0 4 7 hit k3 v1 0; 0 9 9 remove k3
    0 6 6 put k4 v2 2; 0 0 8 put k4 v1 2; 0 1 6 put k4 v1; 0 2 4 hit k4 v1 1; 0 7 8 hit k4 v1 1; 0 9 9 remove k4
    0 1 2 put k5 v2 3; 0 1 3 put k5 v2 2; 0 5 5 hit k5 v2 2; 0 5 5 hit k5 v2 0; 0 9 9 remove k5
    0 1 5 put k6 v1 2; 0 2 5 put k6 v1 2; 0 0 2 put k6 v1; 0 7 7 hit k6 v1 2; 0 0 1 hit k6 v1 0; 0 9 9 remove k6
    0 0 7 put k7 v2; 0 4 6 put k7 v1; 0 3 3 put k7 v2; 0 6 6 hit k7 v2 0; 0 1 4 hit k7 v1 0; 0 9 9 remove k7
    0 2 4 put k8 v1; 0 3 3 put k8 v2 2; 0 1 6 put k8 v1; 0 0 2 hit k8 v1 0; 0 4 7 hit k8 v1 0; 0 9 9 remove k8
    0 6 6 put k9 v2 2; 0 0 8 put k9 v1 2; 0 1 6 put k9 v1; 0 2 4 hit k9 v1 1; 0 7 8 hit k9 v1 1; 0 9 9 remove k9
    count 58
    repeat 1725 10; count 100050; find accepted
";

#[test]
fn a_hundred_thousand_calls_of_ten_keys_are_accepted(rt: HostRuntime) -> Result<(), Fail> {
    play(rt.alloc(), ROUND)
}
