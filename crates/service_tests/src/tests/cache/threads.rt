//! Callers in threads of their own, with and without upkeep by another thread, over memory, over devices that fail and over files.
use super::caller::{NONE, Tally, calls, sum};
use super::trials::{TWO_SHARDS, hold, keep_over};
use super::*;
use file_device::FileDevice;
use page_device::FuseDevice;
use std::fs::File;
use std::rt::Files;
use std::sync::atomic::{AtomicU64, Ordering};
use std::thread::{Threads, join, map_indices};

// How many callers there are, and how many calls each makes.
const CALLERS: usize = 4;

const CALLS: u32 = 12_500;

// Devices of which two refuse one call, and two all calls from one on.
fn fuses(alloc: Global) -> Result<Vec<FuseDevice<MemoryDevice<256>>>, Fail> {
    let mut devices = Vec::new(alloc);
    devices.push(FuseDevice::one(MemoryDevice::new(alloc, PAGES)?, 40))?;
    devices.push(FuseDevice::from(MemoryDevice::new(alloc, PAGES)?, 4_001))?;
    devices.push(FuseDevice::one(MemoryDevice::new(alloc, PAGES)?, 2_003))?;
    devices.push(FuseDevice::from(MemoryDevice::new(alloc, PAGES)?, 0))?;
    Ok(devices)
}

// A device in a file for each lane.
fn files<R: Files<File = File>>(rt: &R, alloc: Global) -> Result<Vec<FileDevice<256>>, Fail> {
    let mut devices = Vec::new(alloc);
    for path in ["a.lane", "b.lane", "c.lane", "d.lane"] {
        devices.push(FileDevice::open(rt, path, PAGES)?)?;
    }
    Ok(devices)
}

// Makes the calls of all callers, each in a thread of its own; none if there was no memory or no thread.
fn all_calls<
    D: PageDevice<256> + Send,
    L: KeyLanes + Send + Sync,
    J: BookName + Send + Sync,
    R: Threads + Wait + Sync,
>(rt: &R, alloc: Global, cache: &Cache<D, L, J>) -> Option<Tally> {
    let made = map_indices(
        rt,
        alloc,
        CALLERS,
        &|caller| { calls(rt, alloc, cache, (caller % CALLERS) as u8, CALLS) },
    );
    let Ok(tallies) = made else {
        return None;
    };
    let mut all = NONE;
    for tally in &tallies {
        all = sum(all, *tally);
    }
    Some(all)
}

// Does what is due in each lane, until the callers have ended.
fn tend<D: PageDevice<256>, L: KeyLanes, J: BookName, R: Wait>(
    rt: &R,
    cache: &Cache<D, L, J>,
    ended: &AtomicU64,
) {
    for _ in rt.forever() {
        if ended.load(Ordering::SeqCst) != 0 {
            return;
        }
        for lane in 0..cache.lanes() {
            let _step = cache.upkeep_step(rt, lane);
        }
    }
}

// The calls of all callers, beside a thread that tends the cache.
fn tended_calls<
    D: PageDevice<256> + Send,
    L: KeyLanes + Send + Sync,
    J: BookName + Send + Sync,
    R: Threads + Wait + Sync,
>(rt: &R, alloc: Global, cache: &Cache<D, L, J>) -> Option<Tally> {
    let ended = AtomicU64::new(0);
    let ended = &ended;
    let (made, _) = join(
        rt,
        || {
            let made = all_calls(rt, alloc, cache);
            ended.store(1, Ordering::SeqCst);
            made
        },
        || tend(rt, cache, ended),
    );
    made
}

// Whether all calls were made, none refused, no hit was wrong, and values expired.
fn is_right(made: Option<Tally>) -> bool {
    let all = made.unwrap_or(NONE);
    all.wrong == 0 && all.refused == 0 && all.memory > 0 && all.expired > 0
}

/// Whether the calls of all callers are right, and nobody tends.
pub fn are_right<
    D: PageDevice<256> + Send,
    L: KeyLanes + Send + Sync,
    J: BookName + Send + Sync,
    R: Threads + Wait + Sync,
>(rt: &R, alloc: Global, cache: &Cache<D, L, J>) -> bool {
    is_right(all_calls(rt, alloc, cache))
}

/// Whether the calls of all callers are right, beside a thread that tends the cache.
pub fn are_right_tended<
    D: PageDevice<256> + Send,
    L: KeyLanes + Send + Sync,
    J: BookName + Send + Sync,
    R: Threads + Wait + Sync,
>(rt: &R, alloc: Global, cache: &Cache<D, L, J>) -> bool {
    is_right(tended_calls(rt, alloc, cache))
}

#[test]
fn no_hit_of_threads_is_old(rt: HostRuntime) -> Result<(), Fail> {
    hold(&rt, rt.alloc(), 2, b"threads")
}

#[test]
fn no_hit_of_threads_is_old_beside_upkeep(rt: HostRuntime) -> Result<(), Fail> {
    hold(&rt, rt.alloc(), 2, b"threads-tended")
}

#[test]
fn no_hit_of_threads_is_old_over_fuses(rt: HostRuntime) -> Result<(), Fail> {
    let seed = RandomSeed::draw(&rt)?;
    let devices = fuses(rt.alloc())?;
    let text = b"threads-tended";
    let _kept = keep_over(&rt, rt.alloc(), &TWO_SHARDS, devices, seed, text)?;
    Ok(())
}

#[test]
fn no_hit_of_threads_is_old_over_files(rt: HostRuntime) -> Result<(), Fail> {
    let seed = RandomSeed::draw(&rt)?;
    let devices = files(&rt, rt.alloc())?;
    let text = b"threads-tended";
    let _kept = keep_over(&rt, rt.alloc(), &TWO_SHARDS, devices, seed, text)?;
    Ok(())
}
