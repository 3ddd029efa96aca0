// Puts, fills and removals of a lane.
ghost use Rattle.std.specs.Prelude.{◌≡◌, ◌≢◌, ◌<◌, ◌↔◌, ◌++◌, ◌∷◌, [], length, IfOk, IfErr, OnOk, OnErr, IsErrOf, Ok};
ghost use Rattle.record_pages.specs.Expiry.{timed};
ghost use Rattle.record_pages.specs.Sizes.{object_size, room};
ghost use Rattle.record_pages.specs.declared.key.KeyFault.{KeyFault};
ghost use Rattle.mover.specs.Calls.{StorePuts};
ghost use Rattle.trace_file.specs.declared.act.Act.{Act};
ghost use Rattle.service_lane.specs.declared.filled.Filled.{Filled};
ghost use Rattle.service_lane.specs.Counting.{bytes_of, counts_refused_put, counts_refused_fill};
ghost use Rattle.service_lane.specs.Copies.{copy_gone};
ghost use Rattle.service_lane.specs.Leases.{with_write, HoldsLease};
ghost use Rattle.service_lane.specs.Serving.{PutsStore, FillsStore, FillLeaves, Removes};

use super::ServiceLane;
use crate::counter::Counter;
use crate::filled::Filled;
use crate::key_buffer::{KeyBuffer, check_key};
use crate::lease::Lease;
use page_device::PageDevice;
use record_pages::{Key, KeyFault, Pushed, PutFault, Value};

impl<D: PageDevice<PAGE>, const PAGE: usize> ServiceLane<D, PAGE> {
    /// Puts a value. **A put that is refused keeps the older value of the key, and later look-ups return it**: remove the
    /// key then, if that would be wrong.
    ///
    /// The value expires at the moment `expires`, or never if that is `NEVER`. The word decides whether the pair that leaves
    /// memory for it enters the log. No call of the device is made.
    pub fn put(
        &mut self,
        key: Key,
        value: Value,
        word: u32,
        expires: u64,
    ) -> Result<Pushed, PutFault>
        ensures stored { IfOk result (λ pushed. PutsStore PAGE D.held
            (record { key = key; value = timed value expires }) word pushed self.old self.new) }

        // When it is refused, and what that leaves.
        ensures large { IsErrOf result PutFault.TooLarge ↔ (room PAGE < object_size key value) }
        ensures refused { IfErr result (λ fault. self.new ≡ record self.old {
          counts = counts_refused_put fault self.old.counts;
        }) }
    {
        let bytes = bytes_of(&key, &value);
        let slots = &mut self.slots;
        match put_counted(slots, &mut self.asked, key, value, word, expires) {
            Ok(pushed) => {
                self.counts.count(Counter::PutsStored);
                self.counts.add(Counter::PutsBytes, bytes);
                self.counts.count_if(Counter::of_pushed(pushed));
                Ok(pushed)
            }
            Err(fault) => {
                self.counts.count(Counter::of_refused_put(fault));
                Err(fault)
            }
        }
    }

    /// Puts a value that was read elsewhere since a get of its key missed, if the lease is of this lane and of a key with the same hash, and
    /// no put, fill or removal of the key came between; else it is `Stale`, and nothing is stored. It may be stale without cause, since
    /// keys share slots.
    ///
    /// It believes nothing of the lease. Whatever numbers that holds: if the value is stored, the key was not written after
    /// any moment at which its slot had seen that many writes; the moment at which the lease was given is one.
    pub fn fill(
        &mut self,
        lease: Lease,
        key: Key,
        value: Value,
        word: u32,
        expires: u64,
    ) -> Result<Filled, PutFault>
        ensures stale { (result ≡ Ok Filled.Stale)
            ↔ (HoldsLease self.old.slots key lease → ⊥) }
        ensures filled { IfOk result (FillLeaves PAGE D.held
            (record { key = key; value = timed value expires }) word lease self.old self.new) }

        // When it is refused, and what that leaves.
        ensures large { IsErrOf result PutFault.TooLarge
            ↔ (HoldsLease self.old.slots key lease × (room PAGE < object_size key value)) }
        ensures refused { IfErr result (λ fault. self.new ≡ record self.old {
          counts = counts_refused_fill fault self.old.counts;
        }) }
    {
        if !self.slots.holds(key.bytes(), lease) {
            self.counts.count(Counter::FillsStale);
            return Ok(Filled::Stale);
        }
        match self.fill_held(lease, key, value, word, expires) {
            Ok(pushed) => Ok(Filled::Stored(pushed)),
            Err(fault) => Err(fault),
        }
    }

    // Fills a key by a lease that has not ended.
    fn fill_held(
        &mut self,
        lease: Lease,
        key: Key,
        value: Value,
        word: u32,
        expires: u64,
    ) -> Result<Pushed, PutFault>
        ensures filled { HoldsLease self.old.slots key lease → IfOk result (λ pushed.
            FillsStore PAGE D.held (record { key = key; value = timed value expires }) word
            lease pushed self.old self.new) }
        ensures large { IsErrOf result PutFault.TooLarge ↔ (room PAGE < object_size key value) }
        ensures refused { IfErr result (λ fault. self.new ≡ record self.old {
          counts = counts_refused_fill fault self.old.counts;
        }) }
    {
        let _some = self.slots.count();
        let bytes = bytes_of(&key, &value);
        let slots = &mut self.slots;
        match put_counted(slots, &mut self.asked, key, value, word, expires) {
            Ok(pushed) => {
                self.counts.count(Counter::FillsStored);
                self.counts.add(Counter::FillsBytes, bytes);
                self.counts.count_if(Counter::of_pushed(pushed));
                Ok(pushed)
            }
            Err(fault) => {
                self.counts.count(Counter::of_refused_fill(fault));
                Err(fault)
            }
        }
    }

    /// Puts a value, or removes the key if the put is refused: an older value is hit no more either way.
    ///
    /// Its answers and refusals are those of `put`.
    pub fn put_or_remove(
        &mut self,
        key: Key,
        value: Value,
        word: u32,
        expires: u64,
    ) -> Result<Pushed, PutFault>
        ensures stored { IfOk result (λ pushed. PutsStore PAGE D.held
            (record { key = key; value = timed value expires }) word pushed self.old self.new) }
        ensures large { IsErrOf result PutFault.TooLarge ↔ (room PAGE < object_size key value) }
        ensures removed { IfErr result (λ fault. Removes D.held key (record self.old {
          counts = counts_refused_put fault self.old.counts;
        }) self.new) }
    {
        let kept = KeyBuffer::of(&key);
        match self.put(key, value, word, expires) {
            Ok(pushed) => Ok(pushed),
            Err(fault) => {
                self.remove_kept(kept.bytes());
                Err(fault)
            }
        }
    }

    /// Removes a key, by its bytes. No later get hits its value. It takes no memory and makes no call of the device; so for the
    /// 1 to 255 bytes of a key it is never refused. `KeyEmpty` and `KeyTooLong`, for bytes that are no key's, change nothing.
    pub fn remove(&mut self, key: &[u8]) -> Result<(), KeyFault>
        ensures removed { OnOk result (Removes D.held key.now self.old self.new) }

        // When it is refused, and what that leaves.
        ensures empty { (result ≡ Err KeyFault.KeyEmpty) ↔ (key.now ≡ []) }
        ensures too_long { (result ≡ Err KeyFault.KeyTooLong) ↔ (255 < length key.now) }
        ensures memory { result ≢ Err KeyFault.OutOfMemory }
        ensures refused { OnErr result (self.new ≡ self.old) }
    {
        match check_key(key) {
            Ok(()) => {
                self.remove_kept(key);
                Ok(())
            }
            Err(fault) => Err(fault),
        }
    }

    // Removes the key of these bytes.
    fn remove_kept(&mut self, key: &[u8])
        ensures { Removes D.held key.now self.old self.new }
    {
        let slot = self.slots.slot(key);
        self.asked.remove(key);
        self.slots.wrote_in(slot);
        self.counts.count(Counter::Removals);
    }
}

use crate::copy_store::CopyStore;
use crate::slots::Slots;

// The bytes of an object.
fn bytes_of(key: &Key, value: &Value) -> u64
    ensures { result ≡ bytes_of key.now value.now }
{
    (key.bytes().len() + value.bytes().len()) as u64
}

// Puts a value, and counts the write in its key's slot if it is stored.
fn put_counted<D: PageDevice<PAGE>, const PAGE: usize>(
    slots: &mut Slots,
    asked: &mut CopyStore<D, PAGE>,
    key: Key,
    value: Value,
    word: u32,
    expires: u64,
) -> Result<Pushed, PutFault>
    ensures puts { StorePuts PAGE D.held (record { key = key; value = timed value expires }) word
        asked.old.store result asked.new.store }
    ensures deeds { OnOk result (asked.new.deeds ≡ asked.old.deeds
        ++ record { key = key; act = Act.Put value expires } ∷ []) }
    ensures copies { OnOk result (asked.new.copies ≡ copy_gone key asked.old.copies) }
    ensures counted { OnOk result (slots.new ≡ with_write slots.old key) }
    ensures asked_kept { OnErr result (asked.new ≡ asked.old) }
    ensures slots_kept { OnErr result (slots.new ≡ slots.old) }
{
    let slot = slots.slot(key.bytes());
    let pushed = asked.put(key, value, word, expires)?;
    slots.wrote_in(slot);
    Ok(pushed)
}
