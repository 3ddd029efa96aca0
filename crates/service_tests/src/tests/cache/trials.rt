//! Caches that are opened with a book of their own, for a text each.
ghost use Rattle.std.specs.Prelude.{◌≡◌, length};
ghost use Rattle.service_cache.specs.Sorted.{AreAsSaid, SortsBy};

use super::scripted::kept;
use super::*;
use std::marker::Brand;
use std::random::RandomSource;
use std::thread::Threads;

/// The numbers that a cache is opened with.
#[derive(Clone, Copy)]
pub struct Numbers {
    pub config: Config,
    pub shards: u32,
    pub slots: u32,
}

/// What became of a text: why its cache was not opened, or the number that it kept for its test.
#[derive(Clone, Copy)]
pub enum Outcome {
    Refused(OpenServiceFault),
    Kept(u64),
}

/// Makes the calls of a text, of a cache over these devices, among whose lanes a seed sorts the keys.
pub fn try_over<D: PageDevice<256> + Send, R: Threads + Wait + Sync>(
    rt: &R,
    alloc: Global,
    numbers: &Numbers,
    devices: Vec<D>,
    seed: RandomSeed,
    text: &[u8],
) -> Result<Outcome, Fail> {
    try_sorted::<Brand, D, R>(rt, alloc, numbers, devices, seed, text)
}

// Opens a book for the lanes of these devices.
fn try_sorted<L: KeyLanes + Send + Sync, D: PageDevice<256> + Send, R: Threads + Wait + Sync>(
    rt: &R,
    alloc: Global,
    numbers: &Numbers,
    devices: Vec<D>,
    seed: RandomSeed,
    text: &[u8],
) -> Result<Outcome, Fail>
    requires sorted { SortsBy L.lanes L.lane_of seed (length devices.items) }
    requires honest { AreAsSaid L.is_honest D.honest devices.items }
{
    let book = UnnamedBook::<L>::open(devices.len());
    try_booked::<L, Brand, D, R>(rt, alloc, numbers, devices, seed, book, text)
}

// Opens the cache with its book.
fn try_booked<
    L: KeyLanes + Send + Sync,
    J: BookName + Send + Sync,
    D: PageDevice<256> + Send,
    R: Threads + Wait + Sync,
>(
    rt: &R,
    alloc: Global,
    numbers: &Numbers,
    devices: Vec<D>,
    seed: RandomSeed,
    book: UnnamedBook<L>,
    text: &[u8],
) -> Result<Outcome, Fail>
    requires sorted { SortsBy L.lanes L.lane_of seed (length devices.items) }
    requires honest { AreAsSaid L.is_honest D.honest devices.items }
    requires book { book ≡ J.book }
{
    let Numbers {
        config,
        shards,
        slots,
    } = numbers;
    let book = book.with_name::<J>();
    let options = ServiceOptions {
        shards: *shards,
        lease_slots: *slots,
        bring_back: 0,
    };
    match Cache::<D, L, J>::open(alloc, config, &options, devices, Rriparoo, seed, book) {
        Ok(cache) => Ok(Outcome::Kept(kept(rt, alloc, &cache, text)?)),
        Err(fault) => Ok(Outcome::Refused(fault)),
    }
}

/// Two shards of the small lanes.
pub static TWO_SHARDS: Numbers = Numbers {
    config: SMALL,
    shards: 2,
    slots: 1_000,
};

/// The same of a cache that opens: the number that its text kept.
pub fn keep_over<D: PageDevice<256> + Send, R: Threads + Wait + Sync>(
    rt: &R,
    alloc: Global,
    numbers: &Numbers,
    devices: Vec<D>,
    seed: RandomSeed,
    text: &[u8],
) -> Result<u64, Fail> {
    match try_over(rt, alloc, numbers, devices, seed, text)? {
        Outcome::Kept(number) => Ok(number),
        Outcome::Refused(fault) => Err(Fail::new(fault)),
    }
}

/// Makes the calls of a text, of a cache of this many shards of the small lanes, over memory, with a seed that is drawn.
pub fn hold<R: RandomSource + Threads + Wait + Sync>(
    rt: &R,
    alloc: Global,
    shards: u32,
    text: &[u8],
) -> Result<(), Fail> {
    let seed = RandomSeed::draw(rt)?;
    let numbers = Numbers {
        shards,
        ..TWO_SHARDS
    };
    let devices = so_many(alloc, shards.min(4) * 2, PAGES)?;
    let _kept = keep_over(rt, alloc, &numbers, devices, seed, text)?;
    Ok(())
}

/// One lane in which all is small, so that it has all keys whatever the seed.
pub const ALONE: Config = Config { lanes: 1, ..SMALL };

/// The number that a text keeps, of a cache of one shard of this configuration, over memory.
pub fn keep_one<R: Threads + Wait + Sync>(
    rt: &R,
    alloc: Global,
    config: Config,
    seed: RandomSeed,
    text: &[u8],
) -> Result<u64, Fail> {
    let devices = so_many(alloc, config.lanes, PAGES)?;
    let numbers = Numbers {
        config,
        shards: 1,
        ..TWO_SHARDS
    };
    keep_over(rt, alloc, &numbers, devices, seed, text)
}
