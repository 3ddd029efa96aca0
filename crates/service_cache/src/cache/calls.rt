// The calls of a cache that serves.
ghost use Rattle.std.specs.Prelude.{◌≡◌, ◌<◌, ◌≤◌, IfOk, IfErr, OnOk, OnErr, IsErrOf};
ghost use Rattle.record_pages.specs.Bounded.{IsKey};
ghost use mathlib.Core.List.{IsPrefix};
ghost use Rattle.record_pages.specs.Sizes.{object_size, room};
ghost use Rattle.record_pages.specs.declared.put_fault.PutFault.{PutFault};
ghost use Rattle.mover.specs.Get.{answer_of};
ghost use Rattle.service_lane.specs.Asked.{IsMiss};
ghost use Rattle.trace_file.specs.declared.act.Act.{Act};
ghost use Rattle.service_cache.specs.Refusals.{RefusesGet, RefusesPut, RefusesRemoval};
ghost use Rattle.service_cache.specs.AtLanes.{DoneAtLane, FillsByLease};
ghost use Rattle.service_cache.specs.Seated.{put_of};
ghost use Rattle.service_cache.specs.declared.seat_fault.SeatPutFault.{SeatPutFault};
ghost use Rattle.service_cache.specs.Calls.{HasExpiry, HasMissed, IsHit, kind_of, looked_up, AddsLast, FillAdds, RefusedPutAdds};

use super::ServiceCache;
use crate::looked_up::LookedUp;
use crate::seat_fault::{SeatFault, SeatPutFault};
use deed_book::{BookName, EntryFault, KeyLanes, Seat};
use mover::AnswerKind;
use page_device::PageDevice;
use policy_laws::EvictionPolicy;
use record_pages::{Key, Pushed, Value, ValueBuffer};
use service_lane::{Filled, Lease};
use std::sync::Wait;

impl<
    D: PageDevice<PAGE>,
    P: EvictionPolicy + Drop,
    const PAGE: usize,
    L: KeyLanes,
    J: BookName,
> ServiceCache<D, P, PAGE, L, J> {
    /// Looks a key up, by its bytes, in one hold of its lane; and the seat sees the list as it is. The value of a hit is in the
    /// buffer then, and it is told when it expires; at a miss the buffer is as it was. No memory is taken.
    ///
    /// A hit in memory is the key's latest value not since removed in the list that the seat has seen then, live at the
    /// moment; and so is one on flash, if the device of the key's lane gives back what was written. The moment is the caller's, in the unit in
    /// which puts say when they expire; let all callers read one clock.
    ///
    /// `KeyEmpty` and `KeyTooLong`, for bytes that are no key's, come before a fault of the book. `Foreign` does not come: the
    /// lane of a key has the key's number in the book, and only it enters writes of its keys; but no contract sees through a
    /// lock to say so. `Full` and `OutOfMemory` never come.
    pub fn get<R: Wait>(
        &self,
        rt: &R,
        seat: &mut Seat<L, J>,
        key: &[u8],
        moment: u64,
        found: &mut ValueBuffer,
    ) -> Result<AnswerKind, SeatFault>
        ensures live { IfOk result (λ seen. IsHit L.is_honest L.lane_of seat.new key.now moment
            (answer_of seen found.new)) }
        ensures expires { IfOk result (λ seen. HasExpiry L.is_honest L.lane_of seat.new key.now
            found.new seen) }
        ensures seen { IsPrefix seat.old seat.new }
        ensures untouched { IfOk result (λ seen. IsMiss seen → found.new ≡ found.old) }

        // When it is refused, and what that leaves.
        ensures cause { IfErr result (RefusesGet key.now) }
        ensures answered { OnOk result (IsKey key.now) }
        ensures refused { OnErr result (found.new ≡ found.old) }
    {
        let (number, lane) = self.lane(key);
        let mut guard = lane.lock(rt);
        let held = &mut **guard;
        if held.number() != number {
            return Err(SeatFault::foreign(key));
        }
        held.get(seat, key, moment, found)
    }

    /// Looks a key up as `get` does, and leases it at a miss, in the same hold of its lane: for a fill by what is read elsewhere
    /// then. At a miss the buffer is as it was. No memory is taken.
    pub fn get_or_lease<R: Wait>(
        &self,
        rt: &R,
        seat: &mut Seat<L, J>,
        key: &[u8],
        moment: u64,
        found: &mut ValueBuffer,
    ) -> Result<LookedUp, SeatFault>
        ensures live { IfOk result (λ seen. IsHit L.is_honest L.lane_of seat.new key.now moment
            (looked_up seen found.new)) }
        ensures expires { IfOk result (λ looked. HasExpiry L.is_honest L.lane_of seat.new key.now
            found.new (kind_of looked)) }
        ensures seen { IsPrefix seat.old seat.new }
        ensures untouched { IfOk result (λ looked. HasMissed looked → found.new ≡ found.old) }
        ensures cause { IfErr result (RefusesGet key.now) }
        ensures answered { OnOk result (IsKey key.now) }
        ensures refused { OnErr result (found.new ≡ found.old) }
    {
        let (number, lane) = self.lane(key);
        let mut guard = lane.lock(rt);
        let held = &mut **guard;
        if held.number() != number {
            return Err(SeatFault::foreign(key));
        }
        held.get_or_lease(seat, key, moment, found)
    }

    /// Puts a value, and enters that in the list after all that the seat has seen, in one hold of its key's lane.
    ///
    /// The value expires at the moment `expires`, or never if that is `NEVER`. A put that is refused leaves no older value of
    /// its key: the key is removed. If the store refused the object, the put is entered all the same. `Foreign` does not come,
    /// as `get` says; if the lane under the lock were not the key's, it would change nothing.
    ///
    /// If its lane is near the end of its room the put does upkeep there, in the same hold: up to the first step that may ask
    /// the device, and 4 steps at most.
    pub fn put<R: Wait>(
        &self,
        rt: &R,
        seat: &mut Seat<L, J>,
        key: Key,
        value: Value,
        expires: u64,
    ) -> Result<Pushed, SeatPutFault>
        ensures entered { OnOk result (AddsLast seat.old (put_of key value expires) seat.new) }

        // When it is refused, and what that leaves.
        ensures cause { IfErr result (RefusesPut PAGE key value) }
        ensures fits { OnOk result (object_size key value ≤ room PAGE) }
        ensures refused { IfErr result (λ fault. RefusedPutAdds seat.old (put_of key value expires) fault
            seat.new) }
    {
        let (number, lane) = self.lane(key.bytes());
        let mut guard = lane.lock(rt);
        let held = &mut **guard;
        if held.number() != number {
            return Err(SeatPutFault::Book(EntryFault::Foreign));
        }
        held.put_and_help(&self.policy, seat, key, value, expires)
    }

    /// Puts a value that was read elsewhere since the look-up that leased its key missed, if the lease is of this key and no put, fill or
    /// removal of the key came between, and enters that in the list after all that the seat has seen. Otherwise it is `Stale`, and nothing
    /// is stored or entered. It may be stale without cause, since keys share slots.
    ///
    /// If the store refuses the object, nothing is entered, and the key keeps what it had. If the book is `Full`,
    /// nothing is entered, and the key is removed. `Foreign` does not come, as `get` says; if the lane under the lock
    /// were not the key's, it would change nothing.
    pub fn fill<R: Wait>(
        &self,
        rt: &R,
        seat: &mut Seat<L, J>,
        lease: Lease,
        key: Key,
        value: Value,
        expires: u64,
    ) -> Result<Filled, SeatPutFault>
        ensures entered { IfOk result (λ filled. FillAdds seat.old (put_of key value expires) filled
            seat.new) }
        ensures leased { IfOk result (λ filled. DoneAtLane D (L.lane_of key)
            (FillsByLease PAGE D.honest D.failures D.held P.plan_of lease key value expires filled)) }

        // When it is refused, and what that leaves.
        ensures large { IsErrOf result (SeatPutFault.Put PutFault.TooLarge) → room PAGE < object_size key value }
        ensures refused { OnErr result (seat.new ≡ seat.old) }
    {
        let (number, lane) = self.lane(key.bytes());
        let mut guard = lane.lock(rt);
        let held = &mut **guard;
        if held.number() != number {
            return Err(SeatPutFault::Book(EntryFault::Foreign));
        }
        held.fill_and_help(&self.policy, seat, lease, key, value, expires)
    }

    /// Removes a key, by its bytes, and enters that in the list after all that the seat has seen, in one hold of its lane. It
    /// takes no memory and makes no call of a device.
    ///
    /// For bytes that are no key's nothing changes. If the book is `Full`, nothing is entered, and the key is removed
    /// all the same. `Foreign` does not come, as `get` says; if the lane under the lock were not the key's, nothing
    /// would be removed.
    pub fn remove<R: Wait>(
        &self,
        rt: &R,
        seat: &mut Seat<L, J>,
        key: &[u8],
    ) -> Result<(), SeatFault>
        ensures entered { OnOk result (AddsLast seat.old (record { key = key.now; act = Act.Remove })
            seat.new) }

        // When it is refused, and what that leaves.
        ensures cause { IfErr result (RefusesRemoval key.now) }
        ensures answered { OnOk result (IsKey key.now) }
        ensures refused { OnErr result (seat.new ≡ seat.old) }
    {
        let (number, lane) = self.lane(key);
        let mut guard = lane.lock(rt);
        let held = &mut **guard;
        if held.number() != number {
            return Err(SeatFault::foreign(key));
        }
        held.remove(seat, key)
    }
}
