// What the lanes of a cache tell at the end of a load.
ghost use Rattle.std.specs.Prelude.{◌≡◌, ◌<◌, ◌+◌, IfOk, length};
ghost use Rattle.service_cache.specs.Serving.{lanes_of};
ghost use Rattle.serve_load.specs.Totals.{IsTotal, joined};

use deed_book::{BookName, KeyLanes};
use page_device::PageDevice;
use policy_laws::EvictionPolicy;
use service_cache::ServiceCache;
use service_lane::Counts;
use std::alloc::{AllocError, Global};
use std::sync::Wait;

/// What a lane tells at the end of a load, or lanes together.
#[derive(Clone, Copy)]
pub(crate) struct LaneEnd {
    /// How often it did what.
    pub(crate) counts: Counts,
    /// Objects in memory.
    pub(crate) memory_objects: u64,
    /// Live records in its log.
    pub(crate) log_records: u64,
}

/// What two tell together, each number modulo 2^64.
fn joined(one: &LaneEnd, other: &LaneEnd) -> LaneEnd
    ensures { result ≡ joined one.now other.now }
{
    LaneEnd {
        counts: one.counts.together(&other.counts),
        memory_objects: one.memory_objects.wrapping_add(other.memory_objects),
        log_records: one.log_records.wrapping_add(other.log_records),
    }
}

/// What lanes tell together.
pub(crate) fn total_of(lanes: &[LaneEnd]) -> LaneEnd
    requires { 0 < length lanes.now }
    ensures { IsTotal lanes.now result }
{
    let mut total = lanes[0];
    for lane in &lanes[1..] {
        total = joined(&total, lane);
    }
    total
}

/// What each lane of a cache tells, in order.
pub(crate) fn lane_ends<
    D: PageDevice<PAGE>,
    P: EvictionPolicy + Drop,
    const PAGE: usize,
    L: KeyLanes,
    J: BookName,
    R: Wait,
>(rt: &R, alloc: Global, cache: &ServiceCache<D, P, PAGE, L, J>) -> Result<Vec<LaneEnd>, AllocError>
    ensures { IfOk result (λ ends. length ends.items ≡ lanes_of cache.now) }
{
    let mut ends = Vec::with_capacity(alloc, cache.lanes() as usize)?;
    for lane in 0..cache.lanes() {
        ends.push(LaneEnd {
            counts: cache.counts(rt, lane),
            memory_objects: cache.memory_len(rt, lane) as u64,
            log_records: u64::from(cache.log_usage(rt, lane).live),
        })?;
    }
    Ok(ends)
}
