// The steps of a lane that show nothing new: flushes and moves.
ghost use Rattle.std.specs.Prelude.{◌≡◌, IfOk, OnErr};
ghost use Rattle.mover.specs.Calls.{StoreFlushes, StoreMoves};
ghost use Rattle.service_lane.specs.Counting.{counts_flush, counts_move, counts_refused_move};

use super::ServiceLane;
use crate::counter::Counter;
use klog::Flushed;
use mover::MovedWhole;
use page_device::PageDevice;
use policy_laws::EvictionPolicy;
use std::alloc::AllocError;

impl<D: PageDevice<PAGE>, const PAGE: usize> ServiceLane<D, PAGE> {
    /// One step of flushing the log. It adds no deed, and no memory is taken.
    pub fn flush_step(&mut self) -> Flushed
        ensures leaves { self.new ≡ record self.old {
          store = self.new.store;
          counts = counts_flush result self.old.counts;
        } }
        ensures flushes { StoreFlushes D.honest D.failures D.held self.old.store result
            self.new.store }
    {
        let flushed = self.asked.flush_step();
        self.counts.count_if(Counter::of_flushed(flushed));
        flushed
    }

    /// Moves the objects of a set from the oldest segment of the log to their page, by a policy's plan; or readmits or drops
    /// one, or frees the segment. It adds no deed.
    ///
    /// If memory is refused the tiers stay as they were. If it is the policy that is refused, a move began, is given
    /// up, and its number is not given again.
    pub fn move_whole<P: EvictionPolicy>(&mut self, policy: &P) -> Result<MovedWhole, AllocError>
        ensures moved { IfOk result (λ moved. self.new ≡ record self.old {
          store = self.new.store;
          counts = counts_move moved self.old.counts;
        }) }
        ensures refused { OnErr result (self.new ≡ record self.old {
          store = self.new.store;
          counts = counts_refused_move self.old.counts;
        }) }
        ensures moves { StoreMoves PAGE D.honest D.failures D.held (P.plan_of policy.now)
            self.old.store result self.new.store }
    {
        let Ok(moved) = self.asked.move_whole(policy) else {
            self.counts.count(Counter::MovesOutOfMemory);
            return Err(AllocError);
        };
        self.counts.count_if(Counter::of_moved(moved));
        Ok(moved)
    }
}
