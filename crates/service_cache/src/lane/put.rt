// Puts, fills and removals with a seat.
ghost use Rattle.std.specs.Prelude.{◌≡◌, ◌<◌, ◌≤◌, ◌↔◌, IfOk, OnOk, OnErr, IfErr, IsErrOf, Ok, Err};
ghost use Rattle.record_pages.specs.Bounded.{IsKey};
ghost use Rattle.record_pages.specs.Expiry.{timed};
ghost use Rattle.trace_file.specs.declared.act.Act.{Act};
ghost use Rattle.service_lane.specs.Leases.{HoldsLease};
ghost use Rattle.service_lane.specs.Serving.{PutsStore, FillLeaves, Removes};
ghost use Rattle.service_lane.specs.declared.filled.Filled.{Filled};
ghost use Rattle.deed_book.specs.Registers.{EntersIn};
ghost use Rattle.deed_book.specs.declared.register.EntryFault.{EntryFault};
ghost use Rattle.record_pages.specs.Sizes.{object_size, room};
ghost use Rattle.record_pages.specs.declared.put_fault.PutFault.{PutFault};
ghost use Rattle.service_cache.specs.Refusals.{RefusesPut, RefusesRemoval};
ghost use Rattle.service_cache.specs.Seated.{put_of, PutLeaves, RemovalLeaves, FillEnters, FillRefusalLeaves, HasNoRoom, HasRoomFor};
ghost use Rattle.service_cache.specs.declared.seat_fault.SeatFault.{SeatFault};
ghost use Rattle.service_cache.specs.declared.seat_fault.SeatPutFault.{SeatPutFault};

use super::SeatedLane;
use crate::seat_fault::{SeatFault, SeatPutFault};
use deed_book::{BookName, EntryFault, KeyLanes, OfferedWrite, Register, Seat};
use page_device::PageDevice;
use record_pages::{Key, Pushed, Value};
use service_lane::{Filled, KeyBuffer, Lease, ServiceLane};

impl<D: PageDevice<PAGE>, const PAGE: usize, L: KeyLanes, J: BookName> SeatedLane<D, PAGE, L, J> {
    /// Puts a value of a key of the lane, which is entered in the list after all that the seat has seen.
    ///
    /// A put that is refused removes the key, so that no older value is hit: a cache may always forget. If the store refused
    /// the object the put is entered all the same; if the book did, nothing is entered.
    pub fn put(
        &mut self,
        seat: &mut Seat<L, J>,
        key: Key,
        value: Value,
        word: u32,
        expires: u64,
    ) -> Result<Pushed, SeatPutFault>
        requires { L.lane_of key ≡ self.old.register.number }
        ensures stored { IfOk result (λ pushed. PutsStore PAGE D.held
            (record { key = key; value = timed value expires }) word pushed self.old.serving
            self.new.serving) }
        ensures entered { OnOk result (EntersIn L.lane_of self.old.register seat.old
            (put_of key value expires) self.new.register seat.new) }
        // When it is refused, and what that leaves.
        ensures cause { IfErr result (RefusesPut PAGE key value) }
        ensures fits { OnOk result (object_size key value ≤ room PAGE) }
        ensures full { (result ≡ Err (SeatPutFault.Book EntryFault.Full))
            ↔ HasNoRoom L.lane_of self.old.register }
        ensures refused { IfErr result (λ fault. PutLeaves D.held L.lane_of key value expires fault
            self.old seat.old self.new seat.new) }
        ensures words { self.new.words ≡ self.old.words }
    {
        let put = self.register.put(&key, &value, expires);
        let bytes = key.bytes();
        match enter_or_remove(&mut self.lane, &mut self.register, seat, put, bytes) {
            Ok(()) => {}
            Err(fault) => return Err(SeatPutFault::Book(fault)),
        }
        let pushed = match self.lane.put_or_remove(key, value, word, expires) {
            Ok(pushed) => pushed,
            Err(fault) => return Err(SeatPutFault::Put(fault)),
        };
        Ok(pushed)
    }

    /// Removes a key of the lane, by its bytes, and enters that in the list after all that the seat has seen.
    ///
    /// If the book refuses, the key is removed all the same, and nothing is entered. For bytes that are no key's nothing
    /// changes.
    pub fn remove(&mut self, seat: &mut Seat<L, J>, key: &[u8]) -> Result<(), SeatFault>
        requires { L.lane_of key.now ≡ self.old.register.number }
        ensures removed { OnOk result (Removes D.held key.now self.old.serving self.new.serving) }
        ensures entered { OnOk result (EntersIn L.lane_of self.old.register seat.old
            (record { key = key.now; act = Act.Remove }) self.new.register seat.new) }
        // When it is refused, and what that leaves.
        ensures cause { IfErr result (RefusesRemoval key.now) }
        ensures answered { OnOk result (IsKey key.now) }
        ensures full { (result ≡ Err (SeatFault.Book EntryFault.Full))
            ↔ (IsKey key.now × HasNoRoom L.lane_of self.old.register) }
        ensures refused { IfErr result (λ fault. RemovalLeaves D.held key.now fault self.old seat.old
            self.new seat.new) }
        ensures words { self.new.words ≡ self.old.words }
    {
        match self.lane.remove(key) {
            Ok(()) => {}
            Err(fault) => return Err(SeatFault::Key(fault)),
        }
        let removal = self.register.removal(key);
        match self.register.enter(seat, removal) {
            Ok(()) => {}
            Err(fault) => return Err(SeatFault::Book(fault)),
        }
        Ok(())
    }

    /// Fills a key of the lane by a lease, as `ServiceLane::fill` does; and enters that in the list after all that the seat has
    /// seen, unless it is stale.
    ///
    /// If the store refuses the object, nothing is entered, and what the key had it has. If the book refuses, the key
    /// is removed, and nothing is entered.
    pub fn fill(
        &mut self,
        seat: &mut Seat<L, J>,
        lease: Lease,
        key: Key,
        value: Value,
        word: u32,
        expires: u64,
    ) -> Result<Filled, SeatPutFault>
        requires { L.lane_of key ≡ self.old.register.number }
        ensures stale { (result ≡ Ok Filled.Stale)
            ↔ (HoldsLease self.old.serving.slots key lease → ⊥) }
        ensures filled { IfOk result (λ filled. FillLeaves PAGE D.held
            (record { key = key; value = timed value expires }) word lease self.old.serving
            self.new.serving filled) }
        ensures entered { IfOk result (λ filled. FillEnters L.lane_of (put_of key value expires) filled
            self.old.register seat.old self.new.register seat.new) }
        ensures room { IfOk result (HasRoomFor L.lane_of self.old.register) }

        // When it is refused, and what that leaves.
        ensures full { IsErrOf result (SeatPutFault.Book EntryFault.Full)
            → HasNoRoom L.lane_of self.old.register }
        ensures large { IsErrOf result (SeatPutFault.Put PutFault.TooLarge) → room PAGE < object_size key value }
        ensures refused { IfErr result (λ fault. FillRefusalLeaves PAGE D.held key value expires word
            lease fault self.old seat.old self.new seat.new) }
        ensures words { self.new.words ≡ self.old.words }
    {
        let copy = KeyBuffer::of(&key);
        let put = self.register.put(&key, &value, expires);
        match self.lane.fill(lease, key, value, word, expires) {
            Ok(Filled::Stored(pushed)) => {
                let lane = &mut self.lane;
                let bytes = copy.bytes();
                if let Err(fault) = enter_or_remove(lane, &mut self.register, seat, put, bytes) {
                    return Err(SeatPutFault::Book(fault));
                }
                Ok(Filled::Stored(pushed))
            }
            Ok(Filled::Stale) => Ok(Filled::Stale),
            Err(fault) => Err(SeatPutFault::Put(fault)),
        }
    }
}

// Enters a write of a key, or removes the key from the lane if the book refuses it.
fn enter_or_remove<D: PageDevice<PAGE>, const PAGE: usize, L: KeyLanes, J: BookName>(
    lane: &mut ServiceLane<D, PAGE>,
    register: &mut Register<L, J>,
    seat: &mut Seat<L, J>,
    write: OfferedWrite<L>,
    key: &[u8],
) -> Result<(), EntryFault>
    requires ours { L.lane_of write.key ≡ register.old.number }
    requires key { IsKey key.now }
    ensures entered { OnOk result (EntersIn L.lane_of register.old seat.old write register.new seat.new) }
    ensures stays { OnOk result (lane.new ≡ lane.old) }
    ensures full { (result ≡ Err EntryFault.Full) ↔ HasNoRoom L.lane_of register.old }
    ensures removed { OnErr result (Removes D.held key.now lane.old lane.new) }
    ensures refused { OnErr result ((register.new ≡ register.old) × (seat.new ≡ seat.old)) }
{
    match register.enter(seat, write) {
        Ok(()) => Ok(()),
        Err(fault) => match lane.remove(key) {
            Ok(()) => Err(fault),
            Err(_) => unreachable!(),
        },
    }
}
