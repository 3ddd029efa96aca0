// Puts, fills and removals of a lane.
ghost use Rattle.std.specs.Prelude.{◌≡◌, ◌<◌, ◌≤◌, ◌↔◌, length};
ghost use Rattle.record_pages.specs.Bounded.{IsKey};
ghost use Rattle.c_lane.specs.Lane.{laws_of};
ghost use Rattle.c_lane.specs.Putting.{PutLeaves, PutOrRemoveLeaves, FillLeaves, RemoveLeaves};

use super::CLane;
use crate::object::Object;
use crate::status::Status;
use page_device::PageDevice;
use rand_core::utils::NextWord;
use record_pages::PutFault;
use rriparoo::Rriparoo;
use service_lane::{Filled, Lease};
use std::alloc::Global;

impl<D: PageDevice<4096>> CLane<D> {
    /// Puts a value, and helps for the room that it took. It expires at the moment `expires`, or never if that is 2^64 - 1.
    /// **A put that is refused keeps the older value of the key, and later look-ups return it.** `WrongKey`, `TooLarge` and
    /// `NoMemory` change nothing but counters and the next word of admission.
    pub fn put(&mut self, alloc: Global, key: &[u8], value: &[u8], expires: u64) -> Status
        ensures wrong_key { (result ≡ Status.WrongKey) ↔ (IsKey key.now → ⊥) }
        ensures too_large { (result ≡ Status.TooLarge)
            ↔ (IsKey key.now × (2048 < length value.now)) }
        ensures leaves { PutLeaves (laws_of D.honest D.failures D.held) key.now value.now expires self.old result self.new }
    {
        let object = match Object::new(alloc, key, value) {
            Ok(object) => object,
            Err(status) => return status,
        };
        let word = self.words.next_word();
        match self.lane.put(object.key, object.value, word, expires) {
            Ok(_) => {
                let _helped = self.lane.help(&Rriparoo);
                Status::Done
            }
            Err(fault) => status_of(fault),
        }
    }

    /// Puts a value as `put` does, or removes the key if the put is refused by `TooLarge` or `NoMemory`: an older value is hit
    /// no more either way.
    pub fn put_or_remove(&mut self, alloc: Global, key: &[u8], value: &[u8], expires: u64) -> Status
        ensures wrong_key { (result ≡ Status.WrongKey) ↔ (IsKey key.now → ⊥) }
        ensures too_large { (result ≡ Status.TooLarge)
            ↔ (IsKey key.now × (2048 < length value.now)) }
        ensures leaves { PutOrRemoveLeaves (laws_of D.honest D.failures D.held) key.now value.now expires self.old result self.new }
    {
        let status = self.put(alloc, key, value, expires);
        if status == Status::TooLarge || status == Status::NoMemory {
            let _removed = self.lane.remove(key);
        }
        status
    }

    /// Puts a value that was read elsewhere since the get of its key that gave the lease, if that is of this lane and no put,
    /// fill or removal of the key came between; else it is `Stale`, and nothing is stored. A lease of another key is stale, unless the two have
    /// the same hash. It may be stale without cause, since keys share slots. Its refusals are those of `put`.
    pub fn fill(
        &mut self,
        alloc: Global,
        lease: &Lease,
        key: &[u8],
        value: &[u8],
        expires: u64,
    ) -> Status
        ensures wrong_key { (result ≡ Status.WrongKey) ↔ (IsKey key.now → ⊥) }
        ensures too_large { (result ≡ Status.TooLarge)
            ↔ (IsKey key.now × (2048 < length value.now)) }
        ensures leaves { FillLeaves (laws_of D.honest D.failures D.held) lease.now key.now value.now expires self.old result self.new }
    {
        let object = match Object::new(alloc, key, value) {
            Ok(object) => object,
            Err(status) => return status,
        };
        let word = self.words.next_word();
        match self
            .lane
            .fill(*lease, object.key, object.value, word, expires)
        {
            Ok(Filled::Stored(_)) => {
                let _helped = self.lane.help(&Rriparoo);
                Status::Done
            }
            Ok(Filled::Stale) => Status::Stale,
            Err(fault) => status_of(fault),
        }
    }

    /// Removes a key. No later get hits its value, and no lease of it holds any more. It takes no memory, and is refused by
    /// `WrongKey` alone, which changes nothing.
    pub fn remove(&mut self, key: &[u8]) -> Status
        ensures wrong_key { (result ≡ Status.WrongKey) ↔ (IsKey key.now → ⊥) }
        ensures leaves { RemoveLeaves (laws_of D.honest D.failures D.held) key.now self.old result self.new }
    {
        match self.lane.remove(key) {
            Ok(()) => Status::Done,
            Err(_) => Status::WrongKey,
        }
    }
}

ghost use Rattle.c_lane.specs.Statuses.{status_of_put};

// The status of a put that was refused.
fn status_of(fault: PutFault) -> Status
    ensures { result ≡ status_of_put fault }
{
    match fault {
        PutFault::TooLarge => Status::TooLarge,
        PutFault::OutOfMemory => Status::NoMemory,
    }
}
