// Flushes and moves. They are no deeds.
ghost use Rattle.std.specs.Prelude.{◌≡◌};
ghost use Rattle.mover.specs.Calls.{StoreFlushes, StoreBegins, StoreCommits, StoreAborts, StoreMoves};

use super::DeedStore;
use klog::Flushed;
use mover::{
    Aborted, Begin, Committed, MovedWhole, abort_shows, begin_shows, commit_shows, flush_shows,
    whole_move_shows,
};
use page_device::PageDevice;
use policy_laws::{EvictionPolicy, Plan};
use std::alloc::AllocError;

impl<D: PageDevice<PAGE>, const PAGE: usize> DeedStore<D, PAGE> {
    /// One step of flushing, as `Store::flush_step` does it.
    pub fn flush_step(&mut self) -> Flushed
        ensures flushes { StoreFlushes D.honest D.failures D.held self.old.store result
            self.new.store }
        ensures deeds { self.new.deeds ≡ self.old.deeds }
    {
        flush_shows();
        self.store.flush_step()
    }

    /// Begins a move, as `Store::move_begin` does.
    pub fn move_begin(&mut self) -> Result<Begin, AllocError>
        ensures begins { StoreBegins PAGE D.honest D.failures D.held self.old.store result
            self.new.store }
        ensures deeds { self.new.deeds ≡ self.old.deeds }
    {
        begin_shows();
        self.store.move_begin()
    }

    /// Ends the move with this number by a plan, as `Store::move_commit` does.
    pub fn move_commit(&mut self, plan: &Plan, number: u64) -> Committed
        ensures commits { StoreCommits PAGE D.honest D.failures D.held plan.now number self.old.store
            result self.new.store }
        ensures deeds { self.new.deeds ≡ self.old.deeds }
    {
        commit_shows();
        self.store.move_commit(plan, number)
    }

    /// Gives up the move with this number, as `Store::move_abort` does.
    pub fn move_abort(&mut self, number: u64) -> Aborted
        ensures aborts { StoreAborts D.held number self.old.store result self.new.store }
        ensures deeds { self.new.deeds ≡ self.old.deeds }
    {
        abort_shows();
        self.store.move_abort(number)
    }

    /// A whole move, as `Store::move_whole` does it.
    pub fn move_whole<P: EvictionPolicy>(&mut self, policy: &P) -> Result<MovedWhole, AllocError>
        ensures moves { StoreMoves PAGE D.honest D.failures D.held (P.plan_of policy.now)
            self.old.store result self.new.store }
        ensures deeds { self.new.deeds ≡ self.old.deeds }
    {
        let _layout = self.store.layout();
        whole_move_shows();
        self.store.move_whole(policy)
    }
}
