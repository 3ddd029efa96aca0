// How many entries and slots a lane has in memory.
ghost use Rattle.std.specs.Prelude.{◌≡◌, ◌≤◌};
ghost use Rattle.cache_sizes.specs.Memory.{entries_of, lease_slots_of, strikes_of};

use crate::limits::{MAX_LEASE_SLOTS, MAX_OBJECT_BYTES, MIN_LEASE_SLOTS, MIN_STRIKES};
use crate::proportions::{ENTRIES_FOR_8_RECORDS, SETS_FOR_LEASE_SLOT, STRIKES_FOR_SET};
use crate::records::log_records;
use record_pages::{MAX_ENTRIES, MAX_SEGMENT_PAGES, MAX_SEGMENTS, MAX_SETS};

// The entries that the index of a lane's log has.
#[tactic(auto, unfolding(crate::specs::Memory::entries_of))]
pub(crate) fn entries_of(segments: u32, segment_pages: u32, object_bytes: u32) -> u32
    requires segments { segments ≤ MAX_SEGMENTS }
    requires least_pages { 1 ≤ segment_pages }
    requires most_pages { segment_pages ≤ MAX_SEGMENT_PAGES }
    requires object { object_bytes ≤ MAX_OBJECT_BYTES }
    ensures entries { result ≡ entries_of segments segment_pages object_bytes }
    ensures least { 1 ≤ result }
    ensures most { result ≤ MAX_ENTRIES }
{
    let pages = u64::from((segments + 2) * segment_pages);
    let entries = (ENTRIES_FOR_8_RECORDS * (pages * log_records(object_bytes))).div_ceil(8);
    entries.min(u64::from(MAX_ENTRIES)) as u32
}

/// The slots for leases of a lane with this many sets: one for four sets, and no fewer than `MIN_LEASE_SLOTS`. Keys share slots,
/// and a lease ends with the next write of any key of its slot.
#[tactic(auto, unfolding(crate::specs::Memory::lease_slots_of))]
pub fn lease_slots_of(sets: u32) -> u32
    ensures slots { result ≡ lease_slots_of sets }
    ensures least { 1 ≤ result }
    ensures most { sets ≤ MAX_SETS → result ≤ MAX_LEASE_SLOTS }
{
    (sets / SETS_FOR_LEASE_SLOT).max(MIN_LEASE_SLOTS)
}

/// The strikes that a lane which serves has room for, if it has this many sets: two a set, and no fewer than `MIN_STRIKES`.
/// Some three objects move to a set together, each may replace one that lies there, and a set that is written has no strikes
/// any more. A strike without room makes the lane forget a set, which a cache may.
#[tactic(auto, unfolding(crate::specs::Memory::strikes_of))]
pub fn strikes_of(sets: u32) -> u32
    requires { sets ≤ MAX_SETS }
    ensures strikes { result ≡ strikes_of sets }
    ensures most { result ≤ 131072 }
{
    (STRIKES_FOR_SET * sets).max(MIN_STRIKES)
}
