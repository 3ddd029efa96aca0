//! Upkeep and counts are of the lane that is named, and each lane has the numbers that were asked for.
ghost use Rattle.std.specs.Prelude.{◌<◌};
ghost use Rattle.service_cache.specs.Serving.{lanes_of};

use super::caller::calls;
use super::calls::put;
use super::trials::hold;
use super::*;
use klog::Flushed;
use mover::MovedWhole;
use service_lane::{Counter, Upkept, what_is_due};

// How often each lane is tended once, and how many calls are made before each time: so many bring about that upkeep is due, and so
// often that some step writes a page whatever the seed.
const ROUNDS: u8 = 100;

const CALLS: u32 = 500;

// How many steps of upkeep each lane has done, and how many pages its device has written.
#[derive(Drop)]
struct LaneSums {
    steps: [u64; 4],
    written: [u64; 4],
}

fn counted<D: PageDevice<256>, L: KeyLanes, J: BookName, R: Wait>(
    rt: &R,
    cache: &Cache<D, L, J>,
) -> LaneSums {
    let mut steps = [0; 4];
    let mut written = [0; 4];
    for lane in 0..cache.lanes().min(4) {
        steps[lane as usize] = cache.counts(rt, lane).of(Counter::UpkeepSteps);
        written[lane as usize] = cache.device_counts(rt, lane).pages_written;
    }
    LaneSums { steps, written }
}

// Whether these are the counts before a step of upkeep in a lane and those after it, if the step counts so much.
fn are_one_step(before: &LaneSums, after: &LaneSums, lane: usize, steps: u64, pages: u64) -> bool {
    for at in 0..4usize {
        let (more_steps, more_pages) = if at == lane { (steps, pages) } else { (0, 0) };
        if after.steps[at] != before.steps[at].wrapping_add(more_steps)
            || after.written[at] != before.written[at].wrapping_add(more_pages)
        {
            return false;
        }
    }
    true
}

// How many pages a step of upkeep has written.
fn pages_of(did: Upkept) -> u64 {
    match did {
        Upkept::Flushed(Flushed::Wrote) | Upkept::Moved(MovedWhole::Written) => 1,
        _ => 0,
    }
}

// Makes a step of upkeep in a lane. It is to be done exactly if one is due there, and to be counted there and in no other, with the
// pages that it wrote: how many these are, or none if it is not so.
fn pages_of_own<D: PageDevice<256>, L: KeyLanes, J: BookName, R: Wait>(
    rt: &R,
    cache: &Cache<D, L, J>,
    lane: u32,
) -> Option<u64>
    requires within { lane < lanes_of cache.now }
{
    let before = counted(rt, cache);
    let is_due = what_is_due(&cache.log_usage(rt, lane)).is_some();
    let did = cache.upkeep_step(rt, lane).did;
    let pages = pages_of(did);
    let after = counted(rt, cache);
    let is_own = are_one_step(&before, &after, lane as usize, u64::from(is_due), pages);
    if is_own && is_due == (did != Upkept::Idle) {
        Some(pages)
    } else {
        None
    }
}

// Tends each lane once, and gives how many pages were written, if each step is that lane's own.
fn tend_each<D: PageDevice<256>, L: KeyLanes, J: BookName, R: Wait>(
    rt: &R,
    cache: &Cache<D, L, J>,
) -> Option<u64> {
    let mut pages: u64 = 0;
    for lane in 0..cache.lanes().min(4) {
        pages = pages.wrapping_add(pages_of_own(rt, cache, lane)?);
    }
    Some(pages)
}

/// Whether steps of upkeep, and the pages that the devices have written, are counted for the lane that is named.
pub fn tends_its_lane<D: PageDevice<256>, L: KeyLanes, J: BookName, R: Wait>(
    rt: &R,
    alloc: Global,
    cache: &Cache<D, L, J>,
) -> bool {
    let mut pages: u64 = 0;
    for round in 0..ROUNDS {
        let _tally = calls(rt, alloc, cache, round, CALLS);
        match tend_each(rt, cache) {
            Some(more) => pages = pages.wrapping_add(more),
            None => return false,
        }
    }
    pages > 0
}

#[test]
fn a_step_of_upkeep_is_of_its_lane(rt: HostRuntime) -> Result<(), Fail> {
    hold(&rt, rt.alloc(), 2, b"right lane-by-lane")
}

/// Makes many calls, and puts 255 new keys that never expire, so that the memory of each of four lanes is full whatever the seed, but for
/// odds of one in 10^16. How many lanes there are.
pub fn fill_memory<D: PageDevice<256>, L: KeyLanes, J: BookName, R: Wait>(
    rt: &R,
    alloc: Global,
    cache: &Cache<D, L, J>,
    seat: &mut Seat<L, J>,
) -> Result<u64, Fail> {
    let _tally = calls(rt, alloc, cache, 7, 4 * CALLS);
    for number in 0..255u8 {
        let _pushed = put(rt, alloc, cache, seat, &name_of(number), b"1")??;
    }
    Ok(u64::from(cache.lanes()))
}

// Whether a lane has the small lanes' numbers.
fn is_small<D: PageDevice<256>, L: KeyLanes, J: BookName, R: Wait>(
    rt: &R,
    cache: &Cache<D, L, J>,
    lane: u32,
) -> bool
    requires { lane < lanes_of cache.now }
{
    let usage = cache.log_usage(rt, lane);
    usage.segments == SMALL.segments
        && usage.segment_pages == SMALL.segment_pages
        && usage.limit == SMALL.entries
        && cache.memory_len(rt, lane) == SMALL.memory as usize
}

/// Whether each lane has, and the cache has their layout.
pub fn are_small<D: PageDevice<256>, L: KeyLanes, J: BookName, R: Wait>(
    rt: &R,
    cache: &Cache<D, L, J>,
) -> bool {
    for lane in 0..cache.lanes() {
        if !is_small(rt, cache, lane) {
            return false;
        }
    }
    cache.layout() == SMALL.check().unwrap()
}

static HAS_NUMBERS: &[u8] = b"
    # Each lane of a cache of small lanes, filled by many calls, has the small lanes' numbers.
    tell filled 4; right small
";

#[test]
fn each_lane_has_the_numbers_that_were_asked_for(rt: HostRuntime) -> Result<(), Fail> {
    hold(&rt, rt.alloc(), 2, HAS_NUMBERS)
}
