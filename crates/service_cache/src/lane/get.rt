// Gets and leases with a seat.
ghost use Rattle.std.specs.Prelude.{◌≡◌, IfOk, IfErr, OnOk, OnErr, IsTrue};
ghost use mathlib.Core.List.{IsPrefix};
ghost use Rattle.record_pages.specs.Bounded.{IsKey};
ghost use Rattle.mover.specs.Get.{answer_of};
ghost use Rattle.service_lane.specs.Asked.{IsMiss};
ghost use Rattle.service_lane.specs.Counting.{counts_lease};
ghost use Rattle.service_lane.specs.Leases.{lease_for};
ghost use Rattle.service_lane.specs.Serving.{Gets};
ghost use Rattle.service_cache.specs.Calls.{AnswersOf, HasExpiry, HasMissed, IsHit, kind_of, looked_up};
ghost use Rattle.service_cache.specs.Held.{LooksUp};
ghost use Rattle.service_cache.specs.Refusals.{RefusesGet};

use super::SeatedLane;
use crate::looked_up::LookedUp;
use crate::seat_fault::SeatFault;
use deed_book::{BookName, KeyLanes, Seat};
use mover::AnswerKind;
use page_device::PageDevice;
use record_pages::ValueBuffer;
use service_lane::Lease;

impl<D: PageDevice<PAGE>, const PAGE: usize, L: KeyLanes, J: BookName> SeatedLane<D, PAGE, L, J> {
    /// Looks a key of the lane up, by its bytes, as `ServiceLane::get` does; and the seat sees the list as it is.
    ///
    /// A hit is the key's latest value not since removed in the list that the seat has seen then, live at the moment: in
    /// memory whatever the device does, on flash if it gives back what was written.
    pub fn get(
        &mut self,
        seat: &mut Seat<L, J>,
        key: &[u8],
        moment: u64,
        found: &mut ValueBuffer,
    ) -> Result<AnswerKind, SeatFault>
        requires { L.lane_of key.now ≡ self.old.register.number }
        ensures answers { IfOk result (AnswersOf (IsTrue (D.honest self.old.serving.store.device))
            L.is_honest L.lane_of seat.new key.now moment found.new) }
        ensures seen { IsPrefix seat.old seat.new }
        ensures gets { IfOk result (λ seen. Gets PAGE D.honest D.failures D.held key.now moment
            (answer_of seen found.new) self.old.serving self.new.serving) }
        ensures rest { (self.new.register.number ≡ self.old.register.number)
            × (self.new.words ≡ self.old.words) }
        ensures untouched { IfOk result (λ seen. IsMiss seen → found.new ≡ found.old) }

        // When it is refused, and what that leaves.
        ensures cause { IfErr result (RefusesGet key.now) }
        ensures answered { OnOk result (IsKey key.now) }
        ensures refused { OnErr result ((self.new.serving ≡ self.old.serving) × (found.new ≡ found.old)) }
    {
        let Ok(()) = self.register.look(seat) else {
            return Err(SeatFault::foreign(key));
        };
        let seen = match self.lane.get(key, moment, found) {
            Ok(seen) => seen,
            Err(fault) => return Err(SeatFault::Key(fault)),
        };
        Ok(seen)
    }

    /// A lease of a key, to be taken in the same hold of the lane as the get that missed.
    pub fn lease(&mut self, key: &[u8]) -> Lease
        ensures lease { result ≡ lease_for self.old.serving.slots key.now }
        ensures leaves { self.new ≡ record self.old {
          serving = record self.old.serving { counts = counts_lease self.old.serving.counts };
        } }
    {
        self.lane.lease(key)
    }

    /// Looks a key of the lane up, and leases it at a miss.
    pub(crate) fn get_or_lease(
        &mut self,
        seat: &mut Seat<L, J>,
        key: &[u8],
        moment: u64,
        found: &mut ValueBuffer,
    ) -> Result<LookedUp, SeatFault>
        requires { L.lane_of key.now ≡ self.old.register.number }
        ensures live { IfOk result (λ looked. IsHit L.is_honest L.lane_of seat.new key.now moment
            (looked_up looked found.new)) }
        ensures expires { IfOk result (λ looked. HasExpiry L.is_honest L.lane_of seat.new key.now
            found.new (kind_of looked)) }
        ensures seen { IsPrefix seat.old seat.new }
        ensures looks { IfOk result (λ looked. LooksUp PAGE D.honest D.failures D.held key.now moment
            looked found.new self.old.serving self.new.serving) }
        ensures words { self.new.words ≡ self.old.words }
        ensures untouched { IfOk result (λ looked. HasMissed looked → found.new ≡ found.old) }

        // When it is refused, and what that leaves.
        ensures cause { IfErr result (RefusesGet key.now) }
        ensures answered { OnOk result (IsKey key.now) }
        ensures refused { OnErr result (found.new ≡ found.old) }
    {
        match self.get(seat, key, moment, found) {
            Ok(AnswerKind::Hit { tier, expires }) => Ok(LookedUp::Hit { tier, expires }),
            Ok(AnswerKind::Miss(cause)) => Ok(LookedUp::Miss(cause, self.lease(key))),
            Err(fault) => Err(fault),
        }
    }
}
