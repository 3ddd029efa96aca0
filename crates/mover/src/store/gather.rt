// Gathering the records of a move.
ghost use Rattle.std.specs.Prelude.{◌≡◌, ◌<◌, ◌≤◌, ◌+◌, [], ◌∷◌, ◌++◌, false, length, IfOk, OnErr, IsTrue};
ghost use Rattle.page_device.specs.Device.{faults_after};
ghost use Rattle.record_pages.specs.Sizes.{max_set_records};
ghost use Rattle.klog.specs.Moves.{is_taking_lost, most_taken};
ghost use Rattle.kset.specs.ReadSet.{is_set_lost};
ghost use Rattle.mover.specs.Store.{most_moves};
ghost use Rattle.mover.specs.Lane.{lane_of};
ghost use Rattle.mover.specs.Flight.{most_flights, is_any, sets_in_flight, records_of, just_begun, AreOfSet};
ghost use Rattle.mover.specs.Job.{job_of};
ghost use Rattle.mover.specs.Begin.{WritesNothing, LaneTakes, LaneReads, is_lost, Gathers};
ghost use Rattle.mover.specs.Leaving.{HasAll, TakingLeaves, ReadingLeaves, GatheringLeaves};

use super::Store;
use crate::begin::Begin;
use crate::flight::Flight;
use crate::moving::Moving;
use klog::SetTaken;
use kset::{SetRead, readings_keep_sets};
use page_device::PageDevice;
use policy_laws::Job;
use std::alloc::AllocError;

impl<D: PageDevice<PAGE>, const PAGE: usize> Store<D, PAGE> {
    // The newest live records of a set in the log.
    fn take_set(&mut self, set: u32) -> Result<SetTaken, AllocError>
        ensures writes { WritesNothing D.honest D.held self.old self.new }
        ensures leaves { IfOk result (λ taken. TakingLeaves set self.old taken self.new) }
        ensures out_of_memory { OnErr result (HasAll self.old self.new) }
        ensures faults { IsTrue (D.honest self.old.device) → D.failures self.new.device
            ≡ faults_after (D.failures self.old.device) (is_taking_lost result) }
        ensures gives { IsTrue (D.honest self.old.device) → IfOk result (λ taken.
            LaneTakes set (lane_of D.held self.old) taken (lane_of D.held self.new)) }
    {
        let taken = self.log.take_set(self.alloc, &mut self.device, set)?;
        Ok(taken)
    }

    // The visible records of a set.
    fn read_set(&mut self, set: u32) -> Result<SetRead, AllocError>
        requires { set < self.old.layout.sets }
        ensures writes { WritesNothing D.honest D.held self.old self.new }
        ensures leaves { IfOk result (λ read. ReadingLeaves set self.old read self.new) }
        ensures out_of_memory { OnErr result (HasAll self.old self.new) }
        ensures faults { IsTrue (D.honest self.old.device) → D.failures self.new.device
            ≡ faults_after (D.failures self.old.device) (is_set_lost result) }
        ensures gives { IsTrue (D.honest self.old.device) → IfOk result (λ read.
            LaneReads set (lane_of D.held self.old) read (lane_of D.held self.new)) }
    {
        readings_keep_sets();
        let read = self.sets.read_set(self.alloc, &mut self.device, set)?;
        Ok(read)
    }
}

impl<D: PageDevice<PAGE>, const PAGE: usize> Store<D, PAGE> {
    // Gathers the records of a set that are to move, which are in flight from then on.
    pub(super) fn gather(&mut self, set: u32) -> Result<Begin, AllocError>
        requires free { length self.old.flights < most_flights }
        requires apart { is_any set (sets_in_flight self.old.flights) ≡ false }
        requires set { set < self.old.layout.sets }
        requires number { self.old.moves < most_moves }
        ensures writes { WritesNothing D.honest D.held self.old self.new }
        ensures leaves { IfOk result (λ begun. GatheringLeaves PAGE set self.old begun self.new) }
        ensures out_of_memory { OnErr result (HasAll self.old self.new) }
        ensures faults { IsTrue (D.honest self.old.device) → D.failures self.new.device
            ≡ faults_after (D.failures self.old.device) (is_lost result) }
        ensures gives { IsTrue (D.honest self.old.device) → IfOk result (λ begun.
            Gathers PAGE set (lane_of D.held self.old) begun (lane_of D.held self.new)) }
    {
        // If the records of the lane are placed, so are those of a move.
        let _layout = self.layout();
        let SetTaken::Records(taken) = self.take_set(set)? else {
            return Ok(Begin::PageLost);
        };
        let SetRead::Records(visible) = self.read_set(set)? else {
            return Ok(Begin::PageLost);
        };
        let job = self.fly(Moving {
            number: self.moves + 1,
            set,
            visible,
            taken,
        })?;
        Ok(Begin::Job(job))
    }

    // The next move is in flight from now on; its job.
    fn fly(&mut self, moving: Moving) -> Result<Job, AllocError>
        requires free { length self.old.flights < most_flights }
        requires apart { is_any moving.set (sets_in_flight self.old.flights) ≡ false }
        requires set { moving.set < self.old.layout.sets }
        requires number { moving.number ≡ self.old.moves + 1 }
        requires room { self.old.moves < most_moves }
        requires few { length (records_of moving) ≤ max_set_records + most_taken }
        requires placed { IsTrue (D.honest self.old.device) →
            AreOfSet self.old.log.shape moving }
        ensures job { IfOk result (λ job. job ≡ job_of PAGE moving) }
        ensures flies { IfOk result (λ job. self.new ≡ record self.old {
          flights = self.old.flights ++ just_begun self.old.log.shape moving ∷ [];
          moves = self.old.moves + 1;
        }) }
        ensures err { OnErr result (self.new ≡ self.old) }
    {
        let job = moving.job::<PAGE>(self.alloc)?;
        let marks = moving.marks(self.alloc)?;
        self.flights.push(Flight { moving, marks });
        self.moves += 1;
        Ok(job)
    }
}
