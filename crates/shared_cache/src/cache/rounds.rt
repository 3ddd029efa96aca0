// The rounds of a shared cache: what it does in the background, a lane at a time.
ghost use Rattle.std.specs.Prelude.{◌≡◌, ◌↔◌, ◌<◌};
ghost use Rattle.mover.specs.declared.committed.Committed.{Committed};
ghost use Rattle.shared_cache.specs.declared.moved.Moved.{Moved};

use super::SharedCache;
use crate::moved::Moved;
use klog::Flushed;
use mover::{Begin, Committed};
use page_device::PageDevice;
use policy_laws::{EvictionPolicy, Job, Plan};
use std::alloc::AllocError;
use std::sync::Wait;

impl<D: PageDevice<PAGE>, P: EvictionPolicy + Drop, const PAGE: usize> SharedCache<D, P, PAGE> {
    /// One step of flushing a lane's log, in one hold of its lock.
    pub fn flush_round<R: Wait>(&self, rt: &R, lane: u32) -> Flushed
        requires { lane < self.now.layout.lanes }
    {
        let mut guard = self.books[lane as usize].lock(rt);
        let book = &mut **guard;
        book.flush()
    }

    /// Moves the objects of a set from the oldest segment of a lane's log to their page, by the policy's plan; or
    /// readmits or drops one, or frees the segment. A move begins in one hold of the lane's lock and ends in another. The
    /// policy makes its plan under no lock, so that calls of the lane go on meanwhile.
    ///
    /// `Written` and `Forgotten` end a move by the plan: the set's page is written, or could not be and the set is
    /// forgotten. `Freed`, `Readmitted`, `Dropped` and `PageLost` are done in the first hold. `Nothing` and `Busy` do
    /// nothing: no segment is on the device; 8 moves of the lane are in flight, or all that is live in the oldest segment is
    /// of sets that other rounds move. `StalePlan` and `BadPlan` would change nothing in the second hold; neither comes while
    /// each round ends its own move and the policy keeps its laws.
    ///
    /// `AllocError` of the first hold leaves the lane as it was. If it is the policy that is refused memory, the move
    /// is given up in a hold of its own: the lane's tiers are as the calls meanwhile left them, none of this round's is in
    /// flight, and its number is not given again.
    pub fn move_round<R: Wait>(&self, rt: &R, lane: u32) -> Result<Moved, AllocError>
        requires { lane < self.now.layout.lanes }
    {
        match self.begin_move(rt, lane)? {
            Begin::Nothing => Ok(Moved::Nothing),
            Begin::Busy => Ok(Moved::Busy),
            Begin::Freed => Ok(Moved::Freed),
            Begin::Readmitted => Ok(Moved::Readmitted),
            Begin::Dropped => Ok(Moved::Dropped),
            Begin::PageLost => Ok(Moved::PageLost),
            Begin::Job(job) => self.end_move(rt, lane, &job),
        }
    }

    /// Ends the move of a job by the policy's plan, or gives it up if the policy is refused memory.
    fn end_move<R: Wait>(&self, rt: &R, lane: u32, job: &Job) -> Result<Moved, AllocError>
        requires { lane < self.now.layout.lanes }
    {
        let Ok(plan) = self.policy.choose(self.alloc, job) else {
            self.abort_move(rt, lane, job.number);
            return Err(AllocError);
        };
        let committed = self.commit_move(rt, lane, &plan, job.number);
        Ok(moved_by(committed))
    }

    /// Begins a move of a lane, in one hold of its lock.
    fn begin_move<R: Wait>(&self, rt: &R, lane: u32) -> Result<Begin, AllocError>
        requires { lane < self.now.layout.lanes }
    {
        let mut guard = self.books[lane as usize].lock(rt);
        let book = &mut **guard;
        book.begin()
    }

    /// Ends a move of a lane by a plan, in one hold of its lock.
    fn commit_move<R: Wait>(&self, rt: &R, lane: u32, plan: &Plan, number: u64) -> Committed
        requires { lane < self.now.layout.lanes }
    {
        let mut guard = self.books[lane as usize].lock(rt);
        let book = &mut **guard;
        book.commit(plan, number)
    }

    /// Gives up a move of a lane, in one hold of its lock.
    fn abort_move<R: Wait>(&self, rt: &R, lane: u32, number: u64)
        requires { lane < self.now.layout.lanes }
    {
        let mut guard = self.books[lane as usize].lock(rt);
        let book = &mut **guard;
        let _aborted = book.abort(number);
    }
}

/// What a round did whose plan was answered so.
fn moved_by(committed: Committed) -> Moved
    ensures written { (result ≡ Moved.Written) ↔ (committed ≡ Committed.Written) }
    ensures forgotten { (result ≡ Moved.Forgotten) ↔ (committed ≡ Committed.Forgotten) }
    ensures stale { (result ≡ Moved.StalePlan) ↔ (committed ≡ Committed.StalePlan) }
    ensures bad { (result ≡ Moved.BadPlan) ↔ (committed ≡ Committed.BadPlan) }
{
    match committed {
        Committed::Written => Moved::Written,
        Committed::Forgotten => Moved::Forgotten,
        Committed::StalePlan => Moved::StalePlan,
        Committed::BadPlan => Moved::BadPlan,
    }
}
