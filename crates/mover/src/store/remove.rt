// Removing a key.
ghost use Rattle.std.specs.Prelude.{◌≡◌};
ghost use Rattle.klog.specs.Shown.{place_in};
ghost use Rattle.kset.specs.Sets.{IsPlaceIn};
ghost use Rattle.mover.specs.Lane.{lane_of};
ghost use Rattle.mover.specs.Strike.{struck_at};
ghost use Rattle.mover.specs.Calls.{StoreRemoves};

use super::Store;
use kset::strikes_keep_sets;
use page_device::PageDevice;
use record_pages::Key;
use set_hash::{Placed, place};

impl<D: PageDevice<PAGE>, const PAGE: usize> Store<D, PAGE> {
    /// The key's pair leaves every tier. No call of the device is made, and no memory taken.
    pub fn remove(&mut self, key: &Key)
        ensures { StoreRemoves D.held key.now self.old self.new }
    {
        self.remove_bytes(key.bytes());
    }

    /// The pair of the key with these bytes leaves every tier, as `remove` has it; there is none if they are no key. No
    /// call of the device is made, and no memory taken.
    pub fn remove_bytes(&mut self, key: &[u8])
        ensures { StoreRemoves D.held key.now self.old self.new }
    {
        let placed = self.place_bytes(key);
        self.memory.remove_bytes(key);
        self.strike(&placed);
    }

    /// The key's pair leaves every tier, as `remove` has it. No call of the device is made, and no memory taken.
    pub fn forget(&mut self, key: &Key)
        ensures { StoreRemoves D.held key.now self.old self.new }
    {
        self.remove(key);
    }

    // Strikes the key of a place, in the log, in its set and in each move in flight.
    pub(super) fn strike(&mut self, placed: &Placed)
        requires { IsPlaceIn self.old.sets placed.now }
        ensures layout { self.new.layout ≡ self.old.layout }
        ensures device { self.new.device ≡ self.old.device }
        ensures struck { lane_of D.held self.new ≡ struck_at placed.now (lane_of D.held self.old) }
    {
        strikes_keep_sets();
        self.log.strike(placed);
        self.sets.strike(placed);
        self.flights.strike(placed.hash);
    }

    // Where a key belongs.
    pub(super) fn place(&self, key: &Key) -> Placed
        ensures at { result ≡ place_in self.now.log.shape key.now }
        ensures its { IsPlaceIn self.now.sets result }
    {
        self.place_bytes(key.bytes())
    }

    // Where the key with these bytes belongs.
    pub(super) fn place_bytes(&self, key: &[u8]) -> Placed
        ensures at { result ≡ place_in self.now.log.shape key.now }
        ensures its { IsPlaceIn self.now.sets result }
    {
        place(&self.layout, key)
    }
}
