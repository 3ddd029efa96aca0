// How many records lie on a page, and how many move to one together.
ghost use Rattle.std.specs.Prelude.{◌≡◌, ◌≤◌};
ghost use Rattle.cache_sizes.specs.Records.{log_records, set_records, threshold_of};

use crate::limits::{MAX_OBJECT_BYTES, PAGE_BYTES};
use crate::proportions::{FEW_RECORDS, USUAL_THRESHOLD};
use record_pages::{MAX_LOG_RECORDS, MAX_SET_RECORDS, PAGE_OVERHEAD, RECORD_OVERHEAD};

// How many records of objects of this many bytes lie on a page of a set.
#[tactic(auto, unfolding(crate::specs::Records::set_records))]
pub(crate) fn set_records(object_bytes: u32) -> u64
    ensures records { result ≡ set_records object_bytes }
    ensures least { object_bytes ≤ MAX_OBJECT_BYTES → 1 ≤ result }
    ensures most { result ≤ MAX_SET_RECORDS }
{
    let room = PAGE_BYTES - PAGE_OVERHEAD as u64;
    let records = room / (RECORD_OVERHEAD as u64 + u64::from(object_bytes));
    records.min(MAX_SET_RECORDS as u64)
}

// How many records of objects of this many bytes lie on a page of the log.
#[tactic(auto, unfolding(crate::specs::Records::log_records))]
pub(crate) fn log_records(object_bytes: u32) -> u64
    ensures records { result ≡ log_records object_bytes }
    ensures least { object_bytes ≤ MAX_OBJECT_BYTES → 1 ≤ result }
    ensures most { result ≤ MAX_LOG_RECORDS }
{
    set_records(object_bytes).min(MAX_LOG_RECORDS as u64)
}

/// The fewest objects that a lane had best move to a set together, if objects have this many bytes: two, or one if a set has
/// room for few. An object that waits in vain for another one of its set is lost at the log's end, and large objects are few a set.
#[tactic(auto, unfolding(crate::specs::Records::threshold_of))]
pub fn threshold_of(object_bytes: u32) -> u32
    ensures threshold { result ≡ threshold_of object_bytes }
    ensures least { 1 ≤ result }
    ensures most { result ≤ 2 }
{
    if set_records(object_bytes) < FEW_RECORDS {
        1
    } else {
        USUAL_THRESHOLD
    }
}
