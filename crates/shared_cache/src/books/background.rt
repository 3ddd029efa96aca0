// What a lane's lock is held for in the background: steps of its book that are no calls.
ghost use Rattle.std.specs.Prelude.{◌≡◌};
ghost use Rattle.mover.specs.Calls.{StoreFlushes, StoreBegins, StoreCommits, StoreAborts};

use super::LaneBook;
use klog::Flushed;
use mover::{Aborted, Begin, Committed};
use page_device::PageDevice;
use policy_laws::Plan;
use std::alloc::AllocError;

impl<D: PageDevice<PAGE>, const PAGE: usize> LaneBook<D, PAGE> {
    /// One step of flushing the log of its lane. No call is recorded, and no memory taken.
    pub fn flush(&mut self) -> Flushed
        ensures unrecorded { self.new ≡ record self.old { store = self.new.store } }
        ensures flushes { StoreFlushes D.honest D.failures D.held self.old.store result
            self.new.store }
    {
        self.recorded.flush_step()
    }

    /// Begins a move of its lane: the records of a set are to move, by a plan for the job that is answered; or what else
    /// `Begin` says. No call is recorded.
    ///
    /// If memory is refused the lane stays as it was, and no number is spent.
    pub fn begin(&mut self) -> Result<Begin, AllocError>
        ensures unrecorded { self.new ≡ record self.old { store = self.new.store } }
        ensures begins { StoreBegins PAGE D.honest D.failures D.held self.old.store result
            self.new.store }
    {
        self.recorded.move_begin()
    }

    /// Ends the move with this number by a plan. No call is recorded, and no memory taken. `StalePlan` and `BadPlan`
    /// leave the book as it was.
    pub fn commit(&mut self, plan: &Plan, number: u64) -> Committed
        ensures unrecorded { self.new ≡ record self.old { store = self.new.store } }
        ensures commits { StoreCommits PAGE D.honest D.failures D.held plan.now number self.old.store
            result self.new.store }
    {
        self.recorded.move_commit(plan, number)
    }

    /// Gives up the move with this number: no other one is given its number. No call is recorded, no call of the device
    /// made, and no memory taken. `StalePlan` leaves the book as it was.
    pub fn abort(&mut self, number: u64) -> Aborted
        ensures unrecorded { self.new ≡ record self.old { store = self.new.store } }
        ensures aborts { StoreAborts D.held number self.old.store result self.new.store }
    {
        self.recorded.move_abort(number)
    }
}
