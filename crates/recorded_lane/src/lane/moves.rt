// Moves of a lane that are in flight between two steps. They are no calls of its history.
ghost use Rattle.std.specs.Prelude.{◌≡◌};
ghost use Rattle.mover.specs.Calls.{StoreBegins, StoreCommits, StoreAborts};

use super::RecordedLane;
use mover::{Aborted, Begin, Committed};
use page_device::PageDevice;
use policy_laws::Plan;
use std::alloc::AllocError;

impl<D: PageDevice<PAGE>, const PAGE: usize> RecordedLane<D, PAGE> {
    /// Begins a move of the store, as `Store::move_begin` does. No call is recorded.
    ///
    /// If memory is refused the store stays as it was, and no number is spent.
    pub fn move_begin(&mut self) -> Result<Begin, AllocError>
        ensures unrecorded { self.new ≡ record self.old { store = self.new.store } }
        ensures begins { StoreBegins PAGE D.honest D.failures D.held self.old.store result
            self.new.store }
    {
        self.store.move_begin()
    }

    /// Ends the move with this number by a plan, as `Store::move_commit` does. No call is recorded, and no memory taken.
    pub fn move_commit(&mut self, plan: &Plan, number: u64) -> Committed
        ensures unrecorded { self.new ≡ record self.old { store = self.new.store } }
        ensures commits { StoreCommits PAGE D.honest D.failures D.held plan.now number self.old.store
            result self.new.store }
    {
        self.store.move_commit(plan, number)
    }

    /// Gives up the move with this number, as `Store::move_abort` does. No call is recorded, no call of the device made,
    /// and no memory taken.
    pub fn move_abort(&mut self, number: u64) -> Aborted
        ensures unrecorded { self.new ≡ record self.old { store = self.new.store } }
        ensures aborts { StoreAborts D.held number self.old.store result self.new.store }
    {
        self.store.move_abort(number)
    }
}
