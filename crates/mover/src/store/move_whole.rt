// A whole move.
ghost use Rattle.std.specs.Prelude.{◌≡◌, Ok, IfOk, OnOk, OnErr, IsTrue, IsSomeAnd};
ghost use Rattle.policy_laws.specs.Laws.{IsLawful};
ghost use Rattle.page_device.specs.Device.{faults_after};
ghost use Rattle.mover.specs.Lane.{lane_of};
ghost use Rattle.mover.specs.Flight.{flight_of, without_flight};
ghost use Rattle.mover.specs.Begin.{IsJustBegun};
ghost use Rattle.mover.specs.Whole.{EndGives, EndLeaves, is_failed};
ghost use Rattle.mover.specs.Calls.{StoreMoves};

use super::Store;
use crate::begin::Begin;
use crate::committed::Committed;
use crate::moved_whole::MovedWhole;
use page_device::PageDevice;
use policy_laws::{EvictionPolicy, Job};
use std::alloc::AllocError;

impl<D: PageDevice<PAGE>, const PAGE: usize> Store<D, PAGE> {
    /// Moves the objects of a set from the oldest segment of the log to their page, by a policy's plan; or readmits or
    /// drops one, or frees the segment. It begins a move, and commits it by the plan.
    ///
    /// If memory is refused the tiers stay as they were. If it is the policy that is refused, a move began, is given
    /// up, and its number is not given again.
    pub fn move_whole<P: EvictionPolicy>(&mut self, policy: &P) -> Result<MovedWhole, AllocError>
        ensures { StoreMoves PAGE D.honest D.failures D.held (P.plan_of policy.now) self.old result
            self.new }
    {
        // What is true of every store is true of its moves in flight.
        let _layout = self.layout();
        match self.move_begin()? {
            Begin::Nothing => Ok(MovedWhole::Nothing),
            Begin::Busy => Ok(MovedWhole::Busy),
            Begin::Freed => Ok(MovedWhole::Freed),
            Begin::Readmitted => Ok(MovedWhole::Readmitted),
            Begin::Dropped => Ok(MovedWhole::Dropped),
            Begin::PageLost => Ok(MovedWhole::PageLost),
            Begin::Job(job) => {
                let moved = self.end_by(&job, policy)?;
                Ok(moved)
            }
        }
    }

    // Ends the move of a job by a policy's plan, or gives it up if the policy is refused memory.
    fn end_by<P: EvictionPolicy>(&mut self, job: &Job, policy: &P) -> Result<MovedWhole, AllocError>
        requires { IsSomeAnd (flight_of job.now.number self.old.flights) (IsJustBegun PAGE job.now) }
        ensures layout { self.new.layout ≡ self.old.layout }
        ensures honest { D.honest self.new.device ≡ D.honest self.old.device }
        ensures faults { IfOk result (λ moved. D.failures self.new.device
            ≡ faults_after (D.failures self.old.device) (is_failed (Ok moved))) }
        ensures err { OnErr result (self.new ≡ record self.old {
          flights = without_flight job.now.number self.old.flights;
        }) }
        ensures lawful { OnOk result
            (IsLawful job.now (P.plan_of policy.now job.now)) }
        ensures leaves { IfOk result (λ moved.
            EndLeaves job.now.number (P.plan_of policy.now job.now) self.old moved self.new) }
        ensures gives { IsTrue (D.honest self.old.device) → IfOk result (λ moved.
            EndGives job.now.number (P.plan_of policy.now job.now) (lane_of D.held self.old) moved
            (lane_of D.held self.new)) }
    {
        let Ok(plan) = policy.choose(self.alloc, job) else {
            let _aborted = self.move_abort(job.number);
            return Err(AllocError);
        };
        match self.move_commit(&plan, job.number) {
            Committed::Written => Ok(MovedWhole::Written),
            Committed::Forgotten => Ok(MovedWhole::Forgotten),
            // The move is in flight, and the policy's plan is lawful: so it is neither stale nor bad.
            _ => unreachable!(),
        }
    }
}
