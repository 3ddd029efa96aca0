// Puts and removals.
ghost use Rattle.std.specs.Prelude.{◌≡◌, ◌++◌, ◌∷◌, [], OnOk, OnErr, IsTrue, Some};
ghost use Rattle.record_pages.specs.Expiry.{timed};
ghost use Rattle.mover.specs.Calls.{StorePuts, StorePutsBack, StoreRemoves};
ghost use Rattle.certificate_checker.specs.Current.{current};
ghost use Rattle.trace_file.specs.declared.act.Act.{Act};

use super::DeedStore;
use memory_cache::Pair;
use mover::{CopyFate, put_back_shows, put_shows, removal_shows};
use page_device::PageDevice;
use record_pages::{Key, Pushed, PutFault, Value};
use trace_file::ActRef;

impl<D: PageDevice<PAGE>, const PAGE: usize> DeedStore<D, PAGE> {
    /// Puts a value, as `Store::put` does. What is not refused is a deed.
    pub fn put(
        &mut self,
        key: Key,
        value: Value,
        word: u32,
        expires: u64,
    ) -> Result<Pushed, PutFault>
        ensures puts { StorePuts PAGE D.held (record { key = key; value = timed value expires }) word
            self.old.store result self.new.store }
        ensures deeds { OnOk result (self.new.deeds ≡ self.old.deeds
            ++ record { key = key; act = Act.Put value expires } ∷ []) }
        ensures refused { OnErr result (self.new ≡ self.old) }
    {
        put_shows();
        let put = ActRef::Put(value.bytes(), expires);
        let trail = self.trail.then(key.bytes(), put);
        let pushed = self.store.put(key, value, word, expires)?;
        self.trail = trail;
        Ok(pushed)
    }

    /// Puts a copy back that was kept elsewhere, as `Store::put_back` does. On an honest device it has to be what its key has
    /// now, expired or not. That is no deed.
    pub fn put_back(&mut self, pair: &Pair) -> CopyFate
        requires current { IsTrue (D.honest self.old.store.device)
            → current self.old.deeds pair.now.key ≡ Some pair.now.value }
        ensures puts_back { StorePutsBack PAGE D.held pair.now self.old.store result self.new.store }
        ensures deeds { self.new.deeds ≡ self.old.deeds }
    {
        put_back_shows();
        self.store.put_back(pair)
    }

    /// Removes the key of these bytes, as `Store::remove_bytes` does. That is a deed.
    pub fn remove(&mut self, key: &[u8])
        ensures removes { StoreRemoves D.held key.now self.old.store self.new.store }
        ensures deeds { self.new.deeds
            ≡ self.old.deeds ++ record { key = key.now; act = Act.Remove } ∷ [] }
    {
        removal_shows();
        self.store.remove_bytes(key);
        self.trail = self.trail.then(key, ActRef::Remove);
    }

    /// Takes the pair of a key out of the store, as a cache may at any time. That is no deed.
    pub fn forget(&mut self, key: &Key)
        ensures removes { StoreRemoves D.held key.now self.old.store self.new.store }
        ensures deeds { self.new.deeds ≡ self.old.deeds }
    {
        removal_shows();
        self.store.forget(key);
    }
}
