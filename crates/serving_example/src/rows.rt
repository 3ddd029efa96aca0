// Rows of the database through the cache.
use crate::database::Database;
use deed_book::{BookName, KeyLanes, Seat};
use page_device::MemoryDevice;
use record_pages::{Key, NEVER, Value, ValueBuffer};
use rriparoo::Rriparoo;
use service_cache::{LookedUp, ServiceCache};
use service_lane::Lease;
use std::alloc::Global;
use std::sync::Wait;

/// The cache, with pages of 256 bytes.
pub type RowCache<L, J> = ServiceCache<MemoryDevice<256>, Rriparoo, 256, L, J>;

/// The key of a row.
fn key_of(row: u8) -> [u8; 4] {
    [b'r', b'o', b'w', row]
}

/// The version that a value of the cache has.
fn version_of(bytes: &[u8]) -> u64 {
    match bytes.first_chunk::<8>() {
        Some(version) => u64::from_be_bytes(*version),
        None => 0,
    }
}

/// Looks a row up: in the cache, and at a miss in the database, by which the cache is filled.
pub fn look_up<L: KeyLanes, J: BookName, R: Wait>(
    rt: &R,
    alloc: Global,
    cache: &RowCache<L, J>,
    seat: &mut Seat<L, J>,
    database: &Database,
    row: u8,
) -> u64 {
    let mut found = ValueBuffer::empty();
    match cache.get_or_lease(rt, seat, &key_of(row), 0, &mut found) {
        Ok(LookedUp::Hit { .. }) => version_of(found.bytes()),
        Ok(LookedUp::Miss(_, lease)) => {
            let version = database.read(rt, row);
            fill(rt, alloc, cache, seat, lease, row, version);
            version
        }
        Err(_) => database.read(rt, row),
    }
}

/// Fills the cache with a row that was read, if no one wrote it since the miss. A refused fill leaves the row out of the
/// cache, and does no harm.
fn fill<L: KeyLanes, J: BookName, R: Wait>(
    rt: &R,
    alloc: Global,
    cache: &RowCache<L, J>,
    seat: &mut Seat<L, J>,
    lease: Lease,
    row: u8,
    version: u64,
) {
    let Ok(key) = Key::new(alloc, &key_of(row)) else {
        return;
    };
    let Ok(value) = Value::new(alloc, &version.to_be_bytes()) else {
        return;
    };
    let _filled = cache.fill(rt, seat, lease, key, value, NEVER);
}

/// Changes a row: first in the database, and then it is removed from the cache.
pub fn change<L: KeyLanes, J: BookName, R: Wait>(
    rt: &R,
    cache: &RowCache<L, J>,
    seat: &mut Seat<L, J>,
    database: &Database,
    row: u8,
) {
    database.write(rt, row);
    let _removed = cache.remove(rt, seat, &key_of(row));
}
