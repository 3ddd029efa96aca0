// Gets and leases of a lane.
ghost use Rattle.std.specs.Prelude.{◌≡◌, ◌≢◌, ◌<◌, ◌↔◌, ◌++◌, ◌∷◌, [], length, IfOk, OnErr, Ok, IsTrue};
ghost use Rattle.record_pages.specs.declared.key.KeyFault.{KeyFault};
ghost use Rattle.mover.specs.Calls.{StoreGets};
ghost use Rattle.mover.specs.Get.{answer_of};
ghost use Rattle.deeds.specs.Sound.{act_of};
ghost use Rattle.service_lane.specs.Asked.{IsLiveHit, IsMiss, TellsExpiry};
ghost use Rattle.service_lane.specs.Counting.{counts_lease};
ghost use Rattle.service_lane.specs.Leases.{lease_for};
ghost use Rattle.service_lane.specs.Serving.{Gets};

use super::ServiceLane;
use crate::counter::Counter;
use crate::key_buffer::check_key;
use crate::lease::Lease;
use mover::AnswerKind;
use page_device::PageDevice;
use record_pages::{KeyFault, ValueBuffer};

impl<D: PageDevice<PAGE>, const PAGE: usize> ServiceLane<D, PAGE> {
    /// Looks a key up, by its bytes. The value of a hit is in the buffer then, and it is told when it expires; at a miss the
    /// buffer is as it was. Memory is taken only to bring an object back, and if it is refused the object stays where it is.
    ///
    /// A copy of an object on flash answers as of a set. A copy that is pushed out for the object that is brought back enters the
    /// log if flash has it no more, so upkeep may be due after a get.
    ///
    /// A hit is the key's latest value not since removed, live at the moment: in memory whatever the device does, on flash if
    /// it gives back what was written. The moment is the caller's, and may go backwards. `KeyEmpty` and `KeyTooLong`, for bytes that
    /// are no key's, change nothing.
    pub fn get(
        &mut self,
        key: &[u8],
        moment: u64,
        found: &mut ValueBuffer,
    ) -> Result<AnswerKind, KeyFault>
        ensures gets { IfOk result (λ seen. Gets PAGE D.honest D.failures D.held key.now moment
            (answer_of seen found.new) self.old self.new) }
        ensures expires { IfOk result (λ seen. TellsExpiry (IsTrue (D.honest self.old.store.device))
            self.old.deeds key.now found.new seen) }
        ensures untouched { IfOk result (λ seen. IsMiss seen → found.new ≡ found.old) }

        // When it is refused, and what that leaves.
        ensures empty { (result ≡ Err KeyFault.KeyEmpty) ↔ (key.now ≡ []) }
        ensures too_long { (result ≡ Err KeyFault.KeyTooLong) ↔ (255 < length key.now) }
        ensures memory { result ≢ Err KeyFault.OutOfMemory }
        ensures refused { OnErr result (self.new ≡ self.old) }
        ensures refused_found { OnErr result (found.new ≡ found.old) }
    {
        match check_key(key) {
            Ok(()) => {
                let seen = self.asked.get_into(key, moment, found);
                self.counts.count(Counter::of_answer(seen.kind));
                self.counts.count_if(Counter::of_copied(seen.copied));
                self.counts.count_if(Counter::of_fate_after(seen.copied));
                Ok(seen.kind)
            }
            Err(fault) => Err(fault),
        }
    }

    /// A lease of a key, to be taken in the same hold of the lane as the get that missed: for a fill by what is read elsewhere
    /// then. It ends with the next put, fill or removal of the key, or of another key of its slot. No memory is taken.
    pub fn lease(&mut self, key: &[u8]) -> Lease
        ensures lease { result ≡ lease_for self.old.slots key.now }
        ensures leaves { self.new ≡ record self.old { counts = counts_lease self.old.counts } }
    {
        self.counts.count(Counter::LeasesGiven);
        self.slots.lease(key)
    }
}
