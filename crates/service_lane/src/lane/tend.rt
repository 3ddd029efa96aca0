// Upkeep of a lane.
ghost use Rattle.std.specs.Prelude.{◌≡◌, true, false, is_some};
ghost use Rattle.service_lane.specs.Counting.{CountsHelps};
ghost use Rattle.service_lane.specs.Upkeep.{Upkeeps, HelpsOnce, Helps, may_ask, due_in};

use super::ServiceLane;
use crate::counter::Counter;
use crate::due::{Due, is_near_end, what_is_due};
use crate::helped::{Helped, MAX_HELP_STEPS};
use crate::upkept::{UpkeepStep, Upkept};
use page_device::PageDevice;
use policy_laws::EvictionPolicy;

impl<D: PageDevice<PAGE>, const PAGE: usize> ServiceLane<D, PAGE> {
    /// Does what is due in the lane, one step: writes a page of its log, or has the policy move what is oldest there; or
    /// nothing, if nothing is due. It adds no deed.
    ///
    /// Meant for a thread in the background, which calls it as long as something is due, and ends its round if memory was
    /// refused. At most 33 pages are read and one is written.
    pub fn upkeep_step<P: EvictionPolicy>(&mut self, policy: &P) -> UpkeepStep
        ensures upkept { Upkeeps PAGE D.honest D.failures D.held (P.plan_of policy.now) self.old
            result.did self.new }
        ensures asked { result.asked_device ≡ may_ask result.did }
        ensures unasked { result.asked_device ≡ false → self.new.store.device
            ≡ self.old.store.device }
        ensures due { result.is_due ≡ is_some (due_in self.new) }
    {
        let did = self.do_due(policy);
        UpkeepStep {
            did,
            asked_device: did.may_ask(),
            is_due: what_is_due(&self.log_usage()).is_some(),
        }
    }

    /// Does steps of upkeep if the lane is near the end of its room, up to the first that may have asked the device, and at
    /// most `MAX_HELP_STEPS`: what a put does for the room that it takes, so that a lane which nobody tends still serves.
    pub fn help<P: EvictionPolicy>(&mut self, policy: &P) -> Helped
        ensures { Helps PAGE D.honest D.failures D.held (P.plan_of policy.now) self.old result
            self.new }
    {
        let mut steps = 0;
        let mut asked_device = false;
        while steps < MAX_HELP_STEPS && !asked_device && is_near_end(&self.log_usage()) {
            asked_device = self.help_once(policy);
            steps += 1;
        }
        Helped {
            steps,
            asked_device,
        }
    }

    // Does one step in help. Whether the device may have been asked.
    fn help_once<P: EvictionPolicy>(&mut self, policy: &P) -> bool
        ensures once { HelpsOnce PAGE D.honest D.failures D.held (P.plan_of policy.now) self.old result
            self.new }
        ensures rest { self.new ≡ record self.old {
          store = self.new.store;
          counts = self.new.counts;
        } }
        ensures counted { is_some (due_in self.old) ≡ true
            → CountsHelps 1 self.old.counts self.new.counts }
        ensures unasked { result ≡ false → self.new.store.device ≡ self.old.store.device }
    {
        let step = self.upkeep_step(policy);
        self.counts.count(Counter::StepsInHelp);
        step.asked_device
    }

    // Does what is due.
    fn do_due<P: EvictionPolicy>(&mut self, policy: &P) -> Upkept
        ensures upkept { Upkeeps PAGE D.honest D.failures D.held (P.plan_of policy.now) self.old
            result self.new }
        ensures unasked { may_ask result ≡ false → self.new.store.device ≡ self.old.store.device }
    {
        match what_is_due(&self.log_usage()) {
            None => Upkept::Idle,
            Some(Due::Flush) => {
                self.counts.count(Counter::UpkeepSteps);
                Upkept::Flushed(self.flush_step())
            }
            Some(Due::Move) => {
                self.counts.count(Counter::UpkeepSteps);
                match self.move_whole(policy) {
                    Ok(moved) => Upkept::Moved(moved),
                    Err(_) => Upkept::OutOfMemory,
                }
            }
        }
    }
}
