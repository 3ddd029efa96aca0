//! A cache that serves: its shards and lanes, its seats, who does its upkeep, and callers who know what their keys have.
mod caller;
mod calls;
mod many;
mod opening;
mod scripted;
mod seats;
mod seeds;
mod tending;
mod threads;
mod trials;

ghost use Rattle.std.specs.Prelude.{◌≡◌, IfOk, length};

use deed_book::{BookName, KeyLanes, Seat, UnnamedBook};
use key_hash::RandomSeed;
use page_device::{MemoryDevice, PageDevice};
use record_pages::{Config, NEVER, Pushed, PutFault, ValueBuffer};
use rriparoo::Rriparoo;
use service_cache::{
    LookedUp, OpenServiceFault, SeatFault, SeatPutFault, ServiceCache, ServiceOptions,
};
use service_lane::Filled;
use std::alloc::Global;
use std::sync::Wait;
use std::test::Fail;
use test_devices::{TextStep, is, key, value};

type Cache<D, L, J> = ServiceCache<D, Rriparoo, 256, L, J>;

// Two lanes of three sets, in which all is small.
const SMALL: Config = Config {
    lanes: 2,
    sets: 3,
    memory: 2,
    segments: 2,
    segment_pages: 1,
    entries: 16,
    threshold: 1,
    admit: 65536,
};

// The pages of three sets and of two segments.
const PAGES: u32 = 5;

// This many devices of this many pages.
fn so_many(alloc: Global, count: u32, pages: u32) -> Result<Vec<MemoryDevice<256>>, Fail>
    ensures { IfOk result (λ devices. length devices.items ≡ count) }
{
    let mut devices = Vec::new(alloc);
    for _ in 0..count {
        devices.push(MemoryDevice::new(alloc, pages)?)?;
    }
    Ok(devices)
}

// A key of eight bytes for each number. A seed spreads these over the lanes; those of two bytes it can leave in a few.
fn name_of(number: u8) -> [u8; 8] {
    let mixed = (u64::from(number) + 1).wrapping_mul(0x9e37_79b9_7f4a_7c15);
    (mixed ^ mixed >> 29)
        .wrapping_mul(0xbf58_476d_1ce4_e5b9)
        .to_be_bytes()
}
