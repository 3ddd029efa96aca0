// Puts and fills by the next word of admission, with help for the room that they took.
ghost use Rattle.std.specs.Prelude.{◌≡◌, ◌<◌, ◌≤◌, ◌↔◌, IfOk, IfErr, OnOk, OnErr, IsErrOf, Ok};
ghost use Rattle.record_pages.specs.Sizes.{object_size, room};
ghost use Rattle.record_pages.specs.declared.put_fault.PutFault.{PutFault};
ghost use Rattle.record_pages.specs.Expiry.{timed};
ghost use Rattle.service_lane.specs.Leases.{HoldsLease};
ghost use Rattle.service_lane.specs.WithHelp.{PutsAndHelps};
ghost use Rattle.service_lane.specs.Words.{next_word, next_words};
ghost use Rattle.service_lane.specs.declared.filled.Filled.{Filled};
ghost use Rattle.service_cache.specs.Calls.{AddsLast, FillAdds, RefusedPutAdds};
ghost use Rattle.service_cache.specs.Held.{FillsOrNot};
ghost use Rattle.service_cache.specs.Refusals.{RefusesPut};
ghost use Rattle.service_cache.specs.Seated.{put_of, drawn, PutLeaves, FillRefusalLeaves};
ghost use Rattle.service_cache.specs.declared.seat_fault.SeatPutFault.{SeatPutFault};

use super::SeatedLane;
use crate::seat_fault::SeatPutFault;
use deed_book::{BookName, KeyLanes, Seat};
use page_device::PageDevice;
use policy_laws::EvictionPolicy;
use record_pages::{Key, Pushed, Value};
use service_lane::{Filled, Lease};

impl<D: PageDevice<PAGE>, const PAGE: usize, L: KeyLanes, J: BookName> SeatedLane<D, PAGE, L, J> {
    /// Puts a value of a key of the lane, and helps for the room that it took.
    pub(crate) fn put_and_help<P: EvictionPolicy>(
        &mut self,
        policy: &P,
        seat: &mut Seat<L, J>,
        key: Key,
        value: Value,
        expires: u64,
    ) -> Result<Pushed, SeatPutFault>
        requires { L.lane_of key ≡ self.old.register.number }
        ensures stored { IfOk result (λ pushed. PutsAndHelps PAGE D.honest D.failures D.held
            (P.plan_of policy.now) (record { key = key; value = timed value expires })
            (next_word self.old.words) pushed self.old.serving self.new.serving) }
        ensures entered { OnOk result (AddsLast seat.old (put_of key value expires) seat.new) }
        ensures words { self.new.words ≡ next_words self.old.words }

        // When it is refused, and what that leaves.
        ensures cause { IfErr result (RefusesPut PAGE key value) }
        ensures fits { OnOk result (object_size key value ≤ room PAGE) }
        ensures refused { IfErr result (λ fault. RefusedPutAdds seat.old (put_of key value expires) fault
            seat.new) }
        ensures leaves { IfErr result (λ fault. PutLeaves D.held L.lane_of key value expires fault
            (drawn self.old) seat.old self.new seat.new) }
    {
        let word = self.draw();
        match self.put(seat, key, value, word, expires) {
            Ok(pushed) => {
                let _helped = self.help(policy);
                Ok(pushed)
            }
            Err(fault) => Err(fault),
        }
    }

    /// Fills a key of the lane by a lease, and helps for the room that it took.
    pub(crate) fn fill_and_help<P: EvictionPolicy>(
        &mut self,
        policy: &P,
        seat: &mut Seat<L, J>,
        lease: Lease,
        key: Key,
        value: Value,
        expires: u64,
    ) -> Result<Filled, SeatPutFault>
        requires { L.lane_of key ≡ self.old.register.number }
        ensures stale { (result ≡ Ok Filled.Stale)
            ↔ (HoldsLease self.old.serving.slots key lease → ⊥) }
        ensures filled { IfOk result (λ filled. FillsOrNot PAGE D.honest D.failures D.held
            (P.plan_of policy.now) key value expires (next_word self.old.words) lease filled
            self.old.serving self.new.serving) }
        ensures entered { IfOk result (λ filled. FillAdds seat.old (put_of key value expires) filled
            seat.new) }
        ensures words { self.new.words ≡ next_words self.old.words }

        // When it is refused, and what that leaves.
        ensures large { IsErrOf result (SeatPutFault.Put PutFault.TooLarge) → room PAGE < object_size key value }
        ensures refused { OnErr result (seat.new ≡ seat.old) }
        ensures leaves { IfErr result (λ fault. FillRefusalLeaves PAGE D.held key value expires
            (next_word self.old.words) lease fault (drawn self.old) seat.old self.new seat.new) }
    {
        let word = self.draw();
        match self.fill(seat, lease, key, value, word, expires) {
            Ok(Filled::Stored(pushed)) => {
                let _helped = self.help(policy);
                Ok(Filled::Stored(pushed))
            }
            Ok(Filled::Stale) => Ok(Filled::Stale),
            Err(fault) => Err(fault),
        }
    }
}
