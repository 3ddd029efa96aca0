// The steps of a lane that are no calls of its history.
ghost use Rattle.std.specs.Prelude.{◌≡◌};
ghost use Rattle.mover.specs.Calls.{StoreRemoves, StoreFlushes, StoreMoves};

use super::RecordedLane;
use klog::Flushed;
use mover::MovedWhole;
use page_device::PageDevice;
use policy_laws::EvictionPolicy;
use record_pages::Key;
use std::alloc::AllocError;

impl<D: PageDevice<PAGE>, const PAGE: usize> RecordedLane<D, PAGE> {
    /// Takes the key's pair out of the store, as a cache may at any time. That is no call of the history; no call of the
    /// device is made, and no memory taken.
    pub fn forget(&mut self, key: &Key)
        ensures unrecorded { self.new ≡ record self.old { store = self.new.store } }
        ensures removes { StoreRemoves D.held key.now self.old.store self.new.store }
    {
        self.store.forget(key);
    }

    /// One step of flushing the store's log. No call is recorded, and no memory taken.
    pub fn flush_step(&mut self) -> Flushed
        ensures unrecorded { self.new ≡ record self.old { store = self.new.store } }
        ensures flushes { StoreFlushes D.honest D.failures D.held self.old.store result
            self.new.store }
    {
        self.store.flush_step()
    }

    /// Moves the objects of a set from the oldest segment of the store's log to their page, by a policy's plan; or
    /// readmits or drops one, or frees the segment. No call is recorded.
    ///
    /// If memory is refused the tiers stay as they were. If it is the policy that is refused, a move began, is given
    /// up, and its number is not given again.
    pub fn move_whole<P: EvictionPolicy>(&mut self, policy: &P) -> Result<MovedWhole, AllocError>
        ensures unrecorded { self.new ≡ record self.old { store = self.new.store } }
        ensures moves { StoreMoves PAGE D.honest D.failures D.held (P.plan_of policy.now)
            self.old.store result self.new.store }
    {
        self.store.move_whole(policy)
    }
}
