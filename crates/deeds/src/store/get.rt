// Gets.
ghost use Rattle.std.specs.Prelude.{◌≡◌, ◌++◌, ◌∷◌, [], IfOk, IsTrue, Ok};
ghost use Rattle.mover.specs.Calls.{StoreGets};
ghost use Rattle.mover.specs.Get.{answer_of};
ghost use Rattle.deeds.specs.Asked.{IsLiveHit, IsMiss, TellsExpiry};
ghost use Rattle.deeds.specs.Sound.{act_of};
ghost use Rattle.certificate_checker.specs.Latest.{IsLive};
ghost use Rattle.trace_file.specs.declared.act.Act.TheVariants.{Hit};

use super::DeedStore;
use crate::telling::{act_lent, act_seen};
use memory_cache::found_is_held;
use mover::{AnswerKind, get_shows};
use page_device::PageDevice;
use record_pages::{Answer, Key, ValueBuffer};
use std::alloc::AllocError;
use trace_file::ActRef;

impl<D: PageDevice<PAGE>, const PAGE: usize> DeedStore<D, PAGE> {
    /// Looks the key of these bytes up, writes the value of a hit into the buffer, and tells when it expires: at a miss the
    /// buffer stays as it was. The answer is a deed.
    pub fn get_into(&mut self, key: &[u8], moment: u64, found: &mut ValueBuffer) -> AnswerKind
        ensures gets { StoreGets PAGE D.honest D.failures D.held key.now moment self.old.store
            (Ok (answer_of result found.new)) self.new.store }
        ensures deeds { self.new.deeds ≡ self.old.deeds
            ++ record { key = key.now; act = act_of moment (answer_of result found.new) } ∷ [] }
        ensures live { IsLiveHit (IsTrue (D.honest self.old.store.device)) self.old.deeds key.now
            moment (answer_of result found.new) }
        ensures expires { TellsExpiry (IsTrue (D.honest self.old.store.device)) self.old.deeds
            key.now found.new result }
        ensures untouched { IsMiss result → found.new ≡ found.old }
    {
        get_shows();
        found_is_held();
        let seen = self.store.get_into(key, moment, found);
        self.trail = self.trail.then(key, act_seen(seen, found, moment));
        seen
    }

    /// Looks a key up. Its answer is no deed yet: `note_got` makes it one, so that a caller may keep it first.
    pub fn get(&mut self, key: &Key, moment: u64) -> Result<Answer, AllocError>
        ensures gets { StoreGets PAGE D.honest D.failures D.held key.now moment self.old.store
            result self.new.store }
        ensures deeds { self.new.deeds ≡ self.old.deeds }
        // What may be noted of the answer.
        ensures live { IfOk result (λ answer. IsLiveHit (IsTrue (D.honest self.new.store.device))
            self.new.deeds key.now moment answer) }
    {
        get_shows();
        found_is_held();
        self.store.get(key, moment)
    }

    /// Makes the answer to a get of a key at a moment a deed, as `get` told it.
    pub fn note_got(&mut self, key: &Key, moment: u64, answer: &Answer)
        requires live { IsLiveHit (IsTrue (D.honest self.old.store.device)) self.old.deeds key.now
            moment answer.now }
        ensures { self.new ≡ record self.old {
          deeds = self.old.deeds ++ record { key = key.now; act = act_of moment answer.now } ∷ [];
        } }
    {
        self.trail = self.trail.then(key.bytes(), act_lent(answer, moment));
    }
    /// Makes a hit of a value that the caller kept a deed: on an honest device it has to be the key's latest value not since
    /// removed, live at the moment. The store is not asked.
    pub fn note_hit(&mut self, key: &[u8], moment: u64, value: &[u8])
        requires live { IsTrue (D.honest self.old.store.device)
            → IsLive self.old.deeds key.now value.now moment }
        ensures { self.new ≡ record self.old {
          deeds = self.old.deeds ++ record { key = key.now; act = Hit value.now moment } ∷ [];
        } }
    {
        self.trail = self.trail.then(key, ActRef::Hit(value, moment));
    }
}
