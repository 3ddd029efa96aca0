//! Callers one after the other, with and without upkeep by another hand.
use super::caller::{NONE, Tally, calls, sum};
use super::trials::hold;
use super::*;
use service_lane::{Counter, Counts};

// How many callers make their calls, and how many each of them makes.
const CALLERS: u8 = 100;

const CALLS: u32 = 1_000;

// How many steps of upkeep are asked for in each lane after a caller's calls.
const STEPS: u32 = 8;

// Does what is due in each lane.
fn tend<D: PageDevice<256>, L: KeyLanes, J: BookName, R: Wait>(rt: &R, cache: &Cache<D, L, J>) {
    for lane in 0..cache.lanes() {
        for _ in 0..STEPS {
            let _step = cache.upkeep_step(rt, lane);
        }
    }
}

// Makes the calls of all callers, with upkeep after each if that is wanted.
fn all_calls<D: PageDevice<256>, L: KeyLanes, J: BookName, R: Wait>(
    rt: &R,
    alloc: Global,
    cache: &Cache<D, L, J>,
    is_tended: bool,
) -> Tally {
    let mut all = NONE;
    for caller in 0..CALLERS {
        all = sum(all, calls(rt, alloc, cache, caller, CALLS));
        if is_tended {
            tend(rt, cache);
        }
    }
    all
}

// What all lanes have counted: their gets, how many steps were done in help, and how many in all.
#[derive(Drop)]
struct Totals {
    gets: Tally,
    in_help: u64,
    steps: u64,
}

// The gets that a lane has counted.
fn gets_of(counts: &Counts) -> Tally {
    Tally {
        memory: counts.of(Counter::MemoryHits),
        log: counts.of(Counter::LogHits),
        set: counts.of(Counter::SetHits),
        absent: counts.of(Counter::Absent),
        expired: counts.of(Counter::Expired),
        failed: counts
            .of(Counter::Faults)
            .wrapping_add(counts.of(Counter::Damaged)),
        ..NONE
    }
}

fn counted<D: PageDevice<256>, L: KeyLanes, J: BookName, R: Wait>(
    rt: &R,
    cache: &Cache<D, L, J>,
) -> Totals {
    let mut all = Totals {
        gets: NONE,
        in_help: 0,
        steps: 0,
    };
    for lane in 0..cache.lanes() {
        let counts = cache.counts(rt, lane);
        all.gets = sum(all.gets, gets_of(&counts));
        all.in_help = all.in_help.wrapping_add(counts.of(Counter::StepsInHelp));
        all.steps = all.steps.wrapping_add(counts.of(Counter::UpkeepSteps));
    }
    all
}

// Whether no call was wrong or refused, values expired, each tier was hit, and the lanes counted just what the callers were told.
fn is_right(tally: Tally, all: &Totals) -> bool {
    tally.log > 0 && tally.set > 0 && tally.expired > 0 && tally == all.gets
}

/// Whether no call is wrong or refused, all is counted, each tier is hit, and puts do all the upkeep.
pub fn is_right_alone<D: PageDevice<256>, L: KeyLanes, J: BookName, R: Wait>(
    rt: &R,
    alloc: Global,
    cache: &Cache<D, L, J>,
) -> bool {
    let tally = all_calls(rt, alloc, cache, false);
    let all = counted(rt, cache);
    is_right(tally, &all) && all.in_help > 0 && all.steps == all.in_help
}

#[test]
fn no_hit_is_old_where_nobody_tends(rt: HostRuntime) -> Result<(), Fail> {
    hold(&rt, rt.alloc(), 2, b"right alone")
}

/// Whether no call is wrong or refused, all is counted, each tier is hit, and another hand does upkeep too.
pub fn is_right_tended<D: PageDevice<256>, L: KeyLanes, J: BookName, R: Wait>(
    rt: &R,
    alloc: Global,
    cache: &Cache<D, L, J>,
) -> bool {
    let tally = all_calls(rt, alloc, cache, true);
    let all = counted(rt, cache);
    is_right(tally, &all) && all.steps > all.in_help
}

#[test]
fn no_hit_is_old_beside_upkeep(rt: HostRuntime) -> Result<(), Fail> {
    hold(&rt, rt.alloc(), 2, b"right tended")
}
