//! A cache in front of a database, whole: threads look rows up, fill the cache at a miss, and change rows, while another tends
//! the cache. No reader may see a row go back to an older version.
#![tactic(auto)]

mod callers;
mod database;
mod rows;

ghost use Rattle.std.specs.Prelude.{◌≡◌, length};
ghost use Rattle.service_cache.specs.Sorted.{SortsBy};

use callers::{Made, made_by_all};
use database::Database;
use deed_book::{BookName, KeyLanes, UnnamedBook};
use key_hash::RandomSeed;
use page_device::MemoryDevice;
use record_pages::Config;
use rows::RowCache;
use rriparoo::Rriparoo;
use service_cache::ServiceOptions;
use std::alloc::Global;
use std::marker::Brand;
use std::process::ExitCode;
use std::sync::Wait;
use std::thread::Threads;

/// Two lanes, in which all is so small that most rows lie on the device.
const CONFIG: Config = Config {
    lanes: 2,
    sets: 16,
    memory: 4,
    segments: 4,
    segment_pages: 1,
    entries: 256,
    threshold: 1,
    admit: 65536,
};

/// The pages of a lane: those of its sets and of its segments.
const PAGES: u32 = 20;

/// One shard. No object on the device is brought back into memory.
const OPTIONS: ServiceOptions = ServiceOptions {
    shards: 1,
    lease_slots: 1024,
    bring_back: 0,
};

/// A device in memory for each lane. A service that is to keep more than memory does opens a `FileDevice` for each.
fn devices_for(alloc: Global, lanes: u32) -> Option<Vec<MemoryDevice<256>>> {
    let mut devices = Vec::new(alloc);
    for _ in 0..lanes {
        devices.push(MemoryDevice::new(alloc, PAGES).ok()?).ok()?;
    }
    Some(devices)
}

/// Opens a book for the lanes of these devices, among which the seed sorts the keys: `L` says which lane each key has, and which
/// lanes have an honest device.
fn made_over<L: KeyLanes + Send + Sync, R: Threads + Wait + Sync>(
    rt: &R,
    alloc: Global,
    devices: Vec<MemoryDevice<256>>,
    seed: RandomSeed,
) -> Option<Made>
    requires { SortsBy L.lanes L.lane_of seed (length devices.items) }
{
    let book = UnnamedBook::<L>::open(devices.len());
    made_with::<L, Brand, R>(rt, alloc, devices, seed, book)
}

/// Opens the cache with its book, of which `J` says which it is, and has all threads use it.
fn made_with<L: KeyLanes + Send + Sync, J: BookName + Send + Sync, R: Threads + Wait + Sync>(
    rt: &R,
    alloc: Global,
    devices: Vec<MemoryDevice<256>>,
    seed: RandomSeed,
    book: UnnamedBook<L>,
) -> Option<Made>
    requires sorted { SortsBy L.lanes L.lane_of seed (length devices.items) }
    requires book { book ≡ J.book }
{
    let book = book.with_name::<J>();
    let cache = RowCache::<L, J>::open(
        alloc, &CONFIG, &OPTIONS, devices, Rriparoo, seed, book,
    ).ok()?;
    made_by_all(rt, alloc, &cache, &Database::new())
}

fn main(rt: HostRuntime) -> ExitCode {
    let Ok(seed) = RandomSeed::draw(&rt) else {
        return ExitCode::from(3);
    };
    let Some(devices) = devices_for(rt.alloc(), CONFIG.lanes) else {
        return ExitCode::from(3);
    };
    let Some(made) = made_over::<Brand, _>(&rt, rt.alloc(), devices, seed) else {
        return ExitCode::from(3);
    };
    let (reads, back) = (made.reads, made.back);
    let _ = println!(rt; "{reads} reads, of which {back} went back");
    if back == 0 {
        ExitCode::from(0)
    } else {
        ExitCode::from(1)
    }
}
