// What is done to a cache that serves beside its calls.
ghost use Rattle.std.specs.Prelude.{◌≡◌, ◌<◌, length};
ghost use Rattle.std.specs.Sync.Mutex.{mutex_guard_value};
ghost use Rattle.crossbeam_utils.specs.Padded.{padded_value};
ghost use Rattle.klog.specs.Usage.{usage_of};
ghost use Rattle.service_cache.specs.AtLanes.{DoneAtLane, TendsLane, WasAtLane};
ghost use Rattle.service_cache.specs.Serving.{lanes_of};

use super::ServiceCache;
use crate::opening::Lane;
use crossbeam_utils::CachePadded;
use deed_book::{BookName, KeyLanes};
use klog::LogUsage;
use page_device::{DeviceCounts, PageDevice};
use policy_laws::EvictionPolicy;
use service_lane::{Counts, UpkeepStep};
use std::sync::{MutexGuard, Wait};

impl<
    D: PageDevice<PAGE>,
    P: EvictionPolicy + Drop,
    const PAGE: usize,
    L: KeyLanes,
    J: BookName,
> ServiceCache<D, P, PAGE, L, J> {
    /// Does what is due in a lane, one step, in one hold of it. At most 33 pages are read and one is written.
    ///
    /// Whoever tends the cache, a thread beside the callers for one, goes around the lanes and calls it for each as long as the
    /// step says that more is due. If it says `OutOfMemory`, leave the lane for the next round.
    pub fn upkeep_step<R: Wait>(&self, rt: &R, lane: u32) -> UpkeepStep
        requires { lane < lanes_of self.now }
        ensures { DoneAtLane D lane
            (TendsLane PAGE D.honest D.failures D.held P.plan_of result) }
    {
        let mut guard = self.hold(rt, lane);
        let held = &mut **guard;
        held.upkeep_step(&self.policy)
    }

    /// Counts of what a lane has done since the cache was opened.
    pub fn counts<R: Wait>(&self, rt: &R, lane: u32) -> Counts
        requires { lane < lanes_of self.now }
        ensures { WasAtLane D lane (λ held. result ≡ held.serving.counts) }
    {
        let mut guard = self.hold(rt, lane);
        let held = &mut **guard;
        held.counts()
    }

    /// What the device of a lane was asked since the cache was opened.
    pub fn device_counts<R: Wait>(&self, rt: &R, lane: u32) -> DeviceCounts
        requires { lane < lanes_of self.now }
        ensures { WasAtLane D lane (λ held. result ≡ held.serving.store.device.counts) }
    {
        let mut guard = self.hold(rt, lane);
        let held = &mut **guard;
        held.device().counts()
    }

    /// How full the log of a lane is.
    pub fn log_usage<R: Wait>(&self, rt: &R, lane: u32) -> LogUsage
        requires { lane < lanes_of self.now }
        ensures { WasAtLane D lane (λ held. result ≡ usage_of held.serving.store.log) }
    {
        let mut guard = self.hold(rt, lane);
        let held = &mut **guard;
        held.log_usage()
    }

    /// How many objects of a lane are in memory, copies of those on flash aside.
    pub fn memory_len<R: Wait>(&self, rt: &R, lane: u32) -> usize
        requires { lane < lanes_of self.now }
        ensures { WasAtLane D lane (λ held. result ≡ length held.serving.store.memory.pairs) }
    {
        let mut guard = self.hold(rt, lane);
        let held = &mut **guard;
        held.memory_len()
    }

    // Holds the lane of a number. It tries again for as long as the lane under that lock has another number, which never comes.
    fn hold<R: Wait>(&self, rt: &R, lane: u32) -> MutexGuard<'_, CachePadded<Lane<D, PAGE, L, J>>>
        requires { lane < lanes_of self.now }
        ensures { (padded_value (mutex_guard_value result)).register.number ≡ lane }
    {
        for _ in rt.forever() {
            let guard = self.lanes[lane as usize].lock(rt);
            if guard.number() == lane as usize {
                return guard;
            }
        }
        unreachable!()
    }
}
