//! A lane that serves, from end to end: each call with what it gives, and what the counters say then. A test is a text whose steps are
//! calls of a lane; the README says which steps there are.
mod counters;
mod names;
mod opening;
mod rows;
mod run;
mod scripted;

use self::scripted::play;
use super::words::place_among;
use klog::Flushed;
use mover::{AnswerKind, MovedWhole};
use page_device::MemoryDevice;
use record_pages::{Config, KeyFault, MissCause, NEVER, Pushed, PutFault, Tier};
use service_lane::{Counter, Counts, Filled, Lease, ServiceLane, UpkeepStep, Upkept};
use std::alloc::Global;
use std::test::Fail;
use test_devices::{TextStep, is};

type Lane = ServiceLane<MemoryDevice<256>, 256>;

// One lane of one set, with one object in memory and two segments of one page.
const ONE_SET: Config = Config {
    lanes: 1,
    sets: 1,
    memory: 1,
    segments: 2,
    segment_pages: 1,
    entries: 8,
    threshold: 1,
    admit: 65536,
};

static EACH_TIER: &[u8] = b"
    open 1
    get ax 0 absent
    put ax 1 9 nobody; get ax 8 memory 1; get ax 9 expired
    put bx 2 logged; get ax 8 log 1
    flush sealed; flush wrote; get ax 8 log 1
    move written; get ax 8 set 1; get ax 9 expired
    remove ax; get ax 8 absent
    move freed
    count memory-hits 1; count log-hits 2; count set-hits 1; count absent 2; count expired 2
    count removals 1; count puts-stored 2; count puts-bytes 6; count logged 1; count sealed 1
    count pages-written 1; count sets-written 1; count segments-freed 1
";

#[test]
fn a_value_is_a_hit_in_each_tier_and_each_call_is_counted(rt: HostRuntime) -> Result<(), Fail> {
    play(rt.alloc(), EACH_TIER)
}

static LEASES: &[u8] = b"
    # With one slot a write of any key ends a lease. A lease of one key fills no other, though they share the slot.
    open 1
    lease 0 ax; fill 0 ax 1 nobody; fill 0 ax 2 stale; get ax 0 memory 1
    lease 0 ax; put ax 3 nobody; fill 0 ax 4 stale
    lease 0 ax; remove ax; fill 0 ax 5 stale; get ax 0 absent
    lease 1 ax; fill 1 bx 5 stale; put bx 6 nobody; fill 1 ax 7 stale
    count leases-given 4; count fills-stale 5; count fills-stored 1; count fills-bytes 3; count puts-stored 2
";

#[test]
fn a_lease_ends_with_the_next_write_of_its_slot(rt: HostRuntime) -> Result<(), Fail> {
    play(rt.alloc(), LEASES)
}

static APART: &[u8] = b"
    # Among many slots the keys have slots of their own. What changes nothing ends no lease.
    open 1000
    lease 0 ax
    put bx 1 nobody; remove cx; put ax v*225 too large; get ax 0 absent; flush nothing; move nothing
    fill 0 ax 2 logged
";

#[test]
fn a_lease_outlives_what_does_not_write_its_slot(rt: HostRuntime) -> Result<(), Fail> {
    play(rt.alloc(), APART)
}

static REFUSED: &[u8] = b"
    open 1
    put ax 1 nobody; put ax v*225 too large; get ax 0 memory 1
    put-or-remove ax 2 nobody; get ax 0 memory 2
    put-or-remove ax v*225 too large; get ax 0 absent
    count puts-stored 2; count puts-too-large 2; count removals 1
";

#[test]
fn a_refused_put_leaves_the_older_value_or_removes_it(rt: HostRuntime) -> Result<(), Fail> {
    play(rt.alloc(), REFUSED)
}

static NO_KEYS: &[u8] = b"
    open 1
    put ax 1 nobody
    get - 0 empty; get k*256 0 too long; remove - empty; remove k*256 too long
    get ax 0 memory 1
";

#[test]
fn bytes_that_are_no_key_are_refused(rt: HostRuntime) -> Result<(), Fail> {
    play(rt.alloc(), NO_KEYS)
}

static TENDED: &[u8] = b"
    # Two objects of these bytes fill a page, so the third and the fifth that leave memory each seal a segment. A page is written once a
    # segment is sealed, and the oldest segment moves once no place is free.
    open 1
    put ax v*100 nobody; put bx v*100 logged; put cx v*100 logged
    tend idle; help 0
    put dx v*100 logged
    tend flushed wrote asked; tend idle
    put ex v*100 logged; put fx v*100 logged
    help 1 asked
    tend moved written asked due; tend moved freed
    count upkeep-steps 4; count steps-in-help 1
    count pages-written 2; count sets-written 1; count segments-freed 1; count sealed 0
";

#[test]
fn a_lane_is_tended_where_something_is_due(rt: HostRuntime) -> Result<(), Fail> {
    play(rt.alloc(), TENDED)
}

static UNTENDED: &[u8] = b"
    # Nobody tends it, so with each buffer full the object that leaves memory is lost, and the put is stored.
    open 1
    put ax v*100 nobody; put bx v*100 logged; put cx v*100 logged; put dx v*100 logged; put ex v*100 logged
    put fx v*100 full; get ex 0 absent
    count logged 4; count log-full 1; count puts-stored 6; count upkeep-steps 0
";

#[test]
fn an_object_is_lost_and_counted_where_nobody_tends(rt: HostRuntime) -> Result<(), Fail> {
    play(rt.alloc(), UNTENDED)
}
