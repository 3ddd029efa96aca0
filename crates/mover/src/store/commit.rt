// How a move ends by a plan.
ghost use Rattle.std.specs.Prelude.{◌≡◌, ◌<◌, [], All, IsTrue};
ghost use Rattle.page_device.specs.Device.{faults_after};
ghost use Rattle.record_pages.specs.Sizes.{IsPageSize};
ghost use Rattle.klog.specs.Moves.{dropped};
ghost use Rattle.kset.specs.Laws.{IsKeyOf};
ghost use Rattle.kset.specs.Rewrite.{is_forgotten, after_rewrite};
ghost use Rattle.mover.specs.Lane.{lane_of};
ghost use Rattle.mover.specs.Begin.{lane_without};
ghost use Rattle.mover.specs.Flight.{unstruck, IsFlightOf, AreOfSet};
ghost use Rattle.mover.specs.Job.{job_of};
ghost use Rattle.mover.specs.Commit.{lane_rewritten, planned_of, landed, landed_in, IsFitting, committed_by};
ghost use Rattle.mover.specs.Calls.{StoreCommits};

use super::Store;
use crate::committed::Committed;
use crate::fitting::is_fitting;
use crate::flight::Flight;
use klog::TakenRecords;
use kset::{Rewritten, rewritings_keep_sets};
use page_device::PageDevice;
use policy_laws::Plan;
use record_pages::{RecordRef, SetPageWriter};

impl<D: PageDevice<PAGE>, const PAGE: usize> Store<D, PAGE> {
    // Writes the page of a set anew.
    fn rewrite(&mut self, set: u32, writer: &SetPageWriter<PAGE>) -> Rewritten
        requires set { set < self.old.layout.sets }
        requires placed { IsTrue (D.honest self.old.device) → All (λ r. IsKeyOf
            self.old.log.shape.lanes self.old.log.shape.sets set r.key) writer.now }
        ensures honest { D.honest self.new.device ≡ D.honest self.old.device }
        ensures faults { D.failures self.new.device
            ≡ faults_after (D.failures self.old.device) (is_forgotten result) }
        ensures leaves { self.new ≡ record self.old {
          device = self.new.device;
          sets = after_rewrite self.old.sets set writer.now result;
        } }
        ensures gives { IsTrue (D.honest self.old.device) → lane_of D.held self.new
            ≡ lane_rewritten set writer.now result (lane_of D.held self.old) }
    {
        rewritings_keep_sets();
        self.sets.rewrite(&mut self.device, set, writer)
    }

    // Drops the records that were taken of a set.
    fn drop_taken(&mut self, set: u32, taken: &TakenRecords)
        ensures leaves { self.new ≡ record self.old { log = dropped self.old.log set taken.now } }
        ensures dropped { lane_of D.held self.new
            ≡ lane_without set taken.now (lane_of D.held self.old) }
    {
        self.log.drop_taken(set, taken);
    }
}

impl<D: PageDevice<PAGE>, const PAGE: usize> Store<D, PAGE> {
    /// Ends the move with this number by a plan, if it is in flight: its set is written anew with the plan's items that
    /// were not struck since the move began, or forgotten if the device fails; and what was taken of the log leaves it.
    /// The other moves stay in flight. Hits since the move began are not seen. No memory is taken.
    ///
    /// `StalePlan` and `BadPlan` change nothing and make no call of the device; after `BadPlan` the move stays in
    /// flight.
    pub fn move_commit(&mut self, plan: &Plan, number: u64) -> Committed
        ensures { StoreCommits PAGE D.honest D.failures D.held plan.now number self.old result
            self.new }
    {
        // What is true of every store is true of its moves in flight.
        let _layout = self.layout();
        let Some(at) = self.flights.place_of(number) else {
            return Committed::StalePlan;
        };
        if !is_fitting::<PAGE>(&self.flights.at(at).moving, plan) {
            return Committed::BadPlan;
        }
        let flight = self.take_flight(at);
        committed_by(self.land(&flight, plan))
    }

    // Writes what a plan keeps of a move, and drops what was taken of the log.
    fn land(&mut self, flight: &Flight, plan: &Plan) -> Rewritten
        requires its { IsFlightOf self.old.log.shape self.old.moves flight.now }
        requires placed { IsTrue (D.honest self.old.device) →
            AreOfSet self.old.log.shape flight.now.moving }
        requires fitting { IsFitting (job_of PAGE flight.now.moving) plan.now }
        ensures honest { D.honest self.new.device ≡ D.honest self.old.device }
        ensures faults { D.failures self.new.device
            ≡ faults_after (D.failures self.old.device) (is_forgotten result) }
        ensures leaves { self.new ≡ landed_in flight.now plan.now result self.old self.new.device }
        ensures gives { IsTrue (D.honest self.old.device) → lane_of D.held self.new
            ≡ landed flight.now plan.now result (lane_of D.held self.old) }
    {
        // The size of pages is known from the store.
        let _ = &self.alloc;
        let mut writer = SetPageWriter::new();
        fill(&mut writer, flight, plan);
        let rewritten = self.rewrite(flight.moving.set, &writer);
        self.drop_taken(flight.moving.set, &flight.moving.taken);
        rewritten
    }
}

// Puts the records of a plan that were not struck on an empty page.
fn fill<const PAGE: usize>(writer: &mut SetPageWriter<PAGE>, flight: &Flight, plan: &Plan)
    requires page_size { IsPageSize PAGE }
    requires empty { writer.old ≡ [] }
    requires fitting { IsFitting (job_of PAGE flight.now.moving) plan.now }
    ensures { writer.new ≡ planned_of flight.now.moving (unstruck flight.now plan.now) }
{
    for number in 0..plan.len() {
        let choice = plan.at(number);
        if !flight.marks.is_struck(choice.item) {
            let record = flight.moving.record(choice.item);
            let anew = RecordRef::new(&record.key, &record.value, choice.prediction);
            writer.push(anew);
        }
    }
}

// How a move ended by a rewriting.
fn committed_by(rewritten: Rewritten) -> Committed
    ensures { result ≡ committed_by rewritten }
{
    match rewritten {
        Rewritten::Written => Committed::Written,
        Rewritten::Forgotten => Committed::Forgotten,
    }
}
