// Upkeep of a lane.
ghost use Rattle.std.specs.Prelude.{◌≡◌, is_some};
ghost use Rattle.service_lane.specs.Upkeep.{due_in};
ghost use Rattle.c_lane.specs.Lane.{laws_of};
ghost use Rattle.c_lane.specs.Tending.{Tends};

use super::CLane;
use crate::step::Step;
use page_device::PageDevice;
use rriparoo::Rriparoo;
use service_lane::what_is_due;

impl<D: PageDevice<4096>> CLane<D> {
    /// Does what is due, one step, or nothing if nothing is. At most 33 pages are read and one is written.
    pub fn upkeep_step(&mut self) -> Step
        ensures { Tends (laws_of D.honest D.failures D.held) self.old result self.new }
    {
        Step::of(&self.lane.upkeep_step(&Rriparoo))
    }

    /// Whether something is due.
    pub fn is_due(&self) -> bool
        ensures { result ≡ is_some (due_in self.now.serving) }
    {
        what_is_due(&self.lane.log_usage()).is_some()
    }
}
