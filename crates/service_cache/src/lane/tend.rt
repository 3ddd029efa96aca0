// Upkeep of a lane with seats.
ghost use Rattle.std.specs.Prelude.{◌≡◌, is_some, false};
ghost use Rattle.service_lane.specs.Upkeep.{Upkeeps, Helps, may_ask, due_in};

use super::SeatedLane;
use deed_book::{BookName, KeyLanes};
use page_device::PageDevice;
use policy_laws::EvictionPolicy;
use service_lane::{Helped, UpkeepStep};

impl<D: PageDevice<PAGE>, const PAGE: usize, L: KeyLanes, J: BookName> SeatedLane<D, PAGE, L, J> {
    /// Does what is due in the lane, one step, as `ServiceLane::upkeep_step` does.
    pub fn upkeep_step<P: EvictionPolicy>(&mut self, policy: &P) -> UpkeepStep
        ensures upkept { Upkeeps PAGE D.honest D.failures D.held (P.plan_of policy.now)
            self.old.serving result.did self.new.serving }
        ensures asked { result.asked_device ≡ may_ask result.did }
        ensures unasked { result.asked_device ≡ false → self.new.serving.store.device
            ≡ self.old.serving.store.device }
        ensures due { result.is_due ≡ is_some (due_in self.new.serving) }
        ensures register { self.new.register ≡ self.old.register }
        ensures words { self.new.words ≡ self.old.words }
    {
        self.lane.upkeep_step(policy)
    }

    /// Does steps of upkeep if the lane is near the end of its room, as `ServiceLane::help` does.
    pub fn help<P: EvictionPolicy>(&mut self, policy: &P) -> Helped
        ensures helps { Helps PAGE D.honest D.failures D.held (P.plan_of policy.now)
            self.old.serving result self.new.serving }
        ensures register { self.new.register ≡ self.old.register }
        ensures words { self.new.words ≡ self.old.words }
    {
        self.lane.help(policy)
    }
}
