// How a move begins.
ghost use Rattle.std.specs.Prelude.{◌≡◌, ◌<◌, [], false, length, IfOk, OnErr, IsTrue};
ghost use Rattle.page_device.specs.Device.{faults_after};
ghost use Rattle.klog.specs.declared.oldest.Oldest.{Oldest};
ghost use Rattle.klog.specs.Moves.{TellsOldest, IsFirstLive, IsOfOldest, is_readmit_fault, freed, without_entry, ReadmitLeaves};
ghost use Rattle.mover.specs.Store.{most_moves};
ghost use Rattle.klog_index.specs.Entries.{is_of_any};
ghost use Rattle.mover.specs.Lane.{lane_of};
ghost use Rattle.mover.specs.Flight.{most_flights, sets_in_flight};
ghost use Rattle.mover.specs.Oldest.{oldest_in};
ghost use Rattle.mover.specs.Begin.{WritesNothing, BeginGives, EntryBegins, LaneReadmits, lane_freed, lane_without_entry, is_lost, began_by, judged_in};
ghost use Rattle.mover.specs.Leaving.{HasAll, HasLog, EntryLeaves, BeginLeaves};
ghost use Rattle.mover.specs.Calls.{StoreBegins};

use super::Store;
use crate::begin::Begin;
use crate::flights::MAX_FLIGHTS;
use admission::{Judgement, Threshold};
use klog::{Oldest, Readmitted};
use klog_index::Entry;
use page_device::PageDevice;
use std::alloc::AllocError;

/// The most moves that a store begins.
const MAX_MOVES: u64 = 1 << 62;

impl<D: PageDevice<PAGE>, const PAGE: usize> Store<D, PAGE> {
    // What is live in the oldest segment on the device, but for sets in flight.
    fn oldest(&self) -> Oldest
        ensures is { oldest_in (sets_in_flight self.now.flights) self.now.log ≡ result }
        ensures tells { TellsOldest (sets_in_flight self.now.flights) self.now.log result }
        ensures first { IsFirstLive (sets_in_flight self.now.flights) self.now.log result }
    {
        // That no two entries lie at one place is known from the length.
        let _live = self.log.len();
        self.log.oldest(self.flights.sets())
    }

    // Frees the oldest segment on the device, none of whose records is live.
    fn free_oldest(&mut self)
        requires { TellsOldest [] self.old.log Oldest.Empty }
        ensures leaves { self.new ≡ record self.old { log = freed self.old.log } }
        ensures freed { lane_of D.held self.new ≡ lane_freed (lane_of D.held self.old) }
    {
        self.log.free_oldest();
    }

    // Drops an entry of the log.
    fn drop_entry(&mut self, entry: &Entry)
        ensures leaves { self.new ≡ record self.old {
          log = without_entry self.old.log entry.now;
        } }
        ensures dropped { lane_of D.held self.new
            ≡ lane_without_entry entry.now (lane_of D.held self.old) }
    {
        self.log.drop_entry(entry);
    }

    // Adds the record of an entry of the oldest segment to the log anew.
    fn readmit(&mut self, entry: &Entry) -> Readmitted
        requires { IsOfOldest self.old.log entry.now }
        ensures writes { WritesNothing D.honest D.held self.old self.new }
        ensures leaves { ReadmitLeaves PAGE self.old.log entry.now result self.new.log }
        ensures rest { HasLog self.new.log self.old self.new }
        ensures faults { D.failures self.new.device
            ≡ faults_after (D.failures self.old.device) (is_readmit_fault result) }
        ensures gives { IsTrue (D.honest self.old.device) →
            LaneReadmits PAGE entry.now (lane_of D.held self.old) result (lane_of D.held self.new) }
    {
        // That no two entries lie at one place is known from the length.
        let _live = self.log.len();
        self.log.readmit(&mut self.device, entry)
    }
}

impl<D: PageDevice<PAGE>, const PAGE: usize> Store<D, PAGE> {
    /// Begins a move: by the first live entry of the oldest segment on the device that is of no set in flight. If there
    /// is a job it is in flight until it is committed or aborted with its number; numbers start at 1, rise with each
    /// job, and none is given again.
    ///
    /// `Busy`, which changes nothing, if 8 moves are in flight, or each live entry of the oldest segment is of a set in
    /// flight: it passes when one of them ends.
    ///
    /// If memory is refused the store stays as it was, and no number is spent.
    pub fn move_begin(&mut self) -> Result<Begin, AllocError>
        ensures { StoreBegins PAGE D.honest D.failures D.held self.old result self.new }
    {
        if self.flights.len() == MAX_FLIGHTS {
            return Ok(Begin::Busy);
        }
        let begun = self.begin_oldest()?;
        Ok(begun)
    }

    // Begins a move if one more may be in flight.
    fn begin_oldest(&mut self) -> Result<Begin, AllocError>
        requires { length self.old.flights < most_flights }
        ensures writes { WritesNothing D.honest D.held self.old self.new }
        ensures leaves { IfOk result (λ begun. BeginLeaves PAGE self.old begun self.new) }
        ensures out_of_memory { OnErr result (HasAll self.old self.new) }
        ensures faults { IsTrue (D.honest self.old.device) → D.failures self.new.device
            ≡ faults_after (D.failures self.old.device) (is_lost result) }
        ensures gives { IsTrue (D.honest self.old.device) → IfOk result (λ begun. BeginGives PAGE
            self.old.layout.threshold (lane_of D.held self.old) begun (lane_of D.held self.new)) }
    {
        if self.moves == MAX_MOVES {
            return Ok(Begin::Nothing);
        }
        match self.oldest() {
            Oldest::NoSegment => Ok(Begin::Nothing),
            Oldest::Empty => {
                self.free_oldest();
                Ok(Begin::Freed)
            }
            Oldest::Passed => Ok(Begin::Busy),
            Oldest::First(entry) => {
                let begun = self.begin_with(&entry)?;
                Ok(begun)
            }
        }
    }

    // Begins a move with an entry of the oldest segment on the device.
    fn begin_with(&mut self, entry: &Entry) -> Result<Begin, AllocError>
        requires free { length self.old.flights < most_flights }
        requires apart { is_of_any (sets_in_flight self.old.flights) entry.now ≡ false }
        requires oldest { IsOfOldest self.old.log entry.now }
        requires set { entry.now.set < self.old.layout.sets }
        requires number { self.old.moves < most_moves }
        ensures writes { WritesNothing D.honest D.held self.old self.new }
        ensures leaves { IfOk result (λ begun. EntryLeaves PAGE entry.now
            (judged_in self.old.layout.threshold self.old.log entry.now) self.old begun self.new) }
        ensures out_of_memory { OnErr result (HasAll self.old self.new) }
        ensures faults { IsTrue (D.honest self.old.device) → D.failures self.new.device
            ≡ faults_after (D.failures self.old.device) (is_lost result) }
        ensures gives { IsTrue (D.honest self.old.device) → IfOk result (λ begun. EntryBegins PAGE
            self.old.layout.threshold entry.now (lane_of D.held self.old) begun
            (lane_of D.held self.new)) }
    {
        match self.judge(entry) {
            Judgement::Move => {
                let begun = self.gather(entry.set)?;
                Ok(begun)
            }
            Judgement::Readmit => Ok(began_by(self.readmit(entry))),
            Judgement::Drop => {
                self.drop_entry(entry);
                Ok(Begin::Dropped)
            }
        }
    }

    // What becomes of an entry of the oldest segment.
    fn judge(&self, entry: &Entry) -> Judgement
        ensures { result
            ≡ judged_in self.now.layout.threshold self.now.log entry.now }
    {
        let threshold = Threshold {
            least: self.layout.threshold,
        };
        threshold.judge(self.log.count(entry.set), entry.prediction)
    }
}

// How a move began by a readmission.
fn began_by(readmitted: Readmitted) -> Begin
    ensures { result ≡ began_by readmitted }
{
    match readmitted {
        Readmitted::Readmitted => Begin::Readmitted,
        Readmitted::Dropped => Begin::Dropped,
        Readmitted::Fault => Begin::PageLost,
        Readmitted::Damaged => Begin::PageLost,
    }
}
