//! What meta sets, deletes and arithmetic do to an item. The replies are those of memcached 1.6.18,
//! but for `ma` whose number gets longer: memcached loses the marks there, and what `T` gives.
use super::scripted::play;
use std::test::Fail;

static OLDER: &[u8] = b"
    open 3; at 1000 0
    ms ax set any 1 1 1100 a stored
    md-I ax any 2 stays invalidated
    mg ax 1 2 1100 a stale found X W
    ms ax set 1 0 3 never b exists
    ms-I ax set 1 3 4 1050 bb stored
    mg ax 3 4 1100 bb stale won found X Z
    ms-I ax set 4 3 5 1050 cc stored
    mg ax 3 5 1050 cc found
    ms-I ax set 999 0 6 never dd exists
    ms-I ax set 0 0 7 never dd exists
    ms ax set 0 0 8 never dd exists
    ms-I ax prepend 1 0 9 never dd exists
    mg ax 3 5 1050 cc found
    ms-I ax replace 1 9 10 never w stored
    mg ax 9 10 1050 w stale found X W
    ms-I ax set any 0 11 never ff stored
    mg ax 0 11 never ff found
";

#[test]
fn a_store_with_an_older_number_leaves_a_stale_item(rt: HostRuntime) -> Result<(), Fail> {
    play(rt.alloc(), OLDER)
}

static MODES: &[u8] = b"
    open 3; at 1000 0
    ms-I ax set 5 0 1 never xx not found
    ms ax set 5 0 2 never xx not found
    ms ax replace 5 0 3 never xx not found
    ms ax replace any 0 4 never xx not stored
    ms ax append any 0 5 never xx not stored
    ms ax prepend 1 0 6 never xx not stored
    ms ax add 1 2 7 1200 x stored
    ms ax add any 0 8 never xx not stored
    ms ax append 0 0 9 never y stored
    ms ax prepend 7 0 10 never w exists
    ms ax prepend 9 0 11 never w stored
    mg ax 2 11 1200 wxy found
    ms ax replace 11 0 12 never r stored
    ms ax replace any 0 13 never s stored
    mg ax 0 13 never s found
";

#[test]
fn a_store_depends_on_its_mode_and_its_number(rt: HostRuntime) -> Result<(), Fail> {
    play(rt.alloc(), MODES)
}

static DELETES: &[u8] = b"
    open 3; at 1000 0
    md ax any not found
    md-I ax any 1 stays not found
    mg ax none not found
    ms ax set any 0 2 never a stored
    md ax 99 exists
    md ax 0 exists
    mg ax 0 2 never a found
    md ax 2 deleted
    mg ax none not found
";

#[test]
fn a_delete_may_depend_on_a_number(rt: HostRuntime) -> Result<(), Fail> {
    play(rt.alloc(), DELETES)
}

static COUNTS: &[u8] = b"
    open 3; at 1000 0
    ma-up ax 1 1 any stays none not found
    ma-up ax 5 2 77 to 1010 13 1060 number 13
    mg ax 0 2 1060 13 found
    ma-up ax 1 3 any stays 40 1070 number 14
    mg ax 0 3 1060 14 found
    ma-down ax 100 4 any to 1030 none number 0
    mg ax 0 4 1030 0~ found
    ma-up ax 100 5 any stays none number 100
    ma-up ax 1 6 4 to 1002 none exists
    mg ax 0 5 1030 100 found
    ma-up ax 1 7 0 stays none number 101
    ma-up ax 1 8 7 to never none number 102
    mg ax 0 8 never 102 found
    ms ax set any 6 9 1100 9 stored
    md-I ax any 10 stays invalidated
    ma-down ax 1 11 any stays none number 8
    mg ax 6 11 1100 8 stale found X W
    ma-up ax 2 12 any to 1050 none number 10
    mg ax 6 12 1050 10 stale won found X Z
    ms ax set any 0 16 never abc stored
    ma-up ax 1 13 any to 1002 1 never not a number
    mg ax 0 16 never abc found
    ma-down bx 1 14 any stays 18446744073709551615 never number 18446744073709551615
    ma-up bx 1 15 any stays none number 0
    mg bx 0 15 never 0~~~~~~~~~~~~~~~~~~~ found
";

#[test]
fn a_number_is_made_and_changed(rt: HostRuntime) -> Result<(), Fail> {
    play(rt.alloc(), COUNTS)
}
