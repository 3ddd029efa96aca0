// Looking a key up in the three tiers.
ghost use Rattle.std.specs.Prelude.{◌≡◌, None, Ok};
ghost use Rattle.std.specs.Bool.{OnFalse};
ghost use Rattle.std.specs.Option.{option_map};
ghost use Rattle.record_pages.specs.Expiry.{value_at};
ghost use Rattle.memory_cache.specs.MemoryList.{value_in};
ghost use Rattle.mover.specs.Calls.{StoreGets};
ghost use Rattle.mover.specs.Get.{answer_of, is_hit};
ghost use Rattle.mover.specs.Recall.{value_of, IsRecalled};
ghost use Rattle.mover.specs.Timed.{expiry_of, expiry_in_memory, expiry_at, expiry_at_memory, TellsExpiry};
ghost use Rattle.mover.specs.Touch.{answer_at, has_value, touched, CanTouch};

use super::Store;
use super::locate::locate_below;
use crate::answer_kind::AnswerKind;
use crate::located::Located;
use crate::memory_answer::MemoryAnswer;
use page_device::PageDevice;
use record_pages::{Answer, Key, MissCause, Tier, ValueBuffer};
use std::alloc::AllocError;

impl<D: PageDevice<PAGE>, const PAGE: usize> Store<D, PAGE> {
    /// The value that a key has at a moment, with the first tier that has a pair of the key: memory, the log, its set.
    /// A pair that has expired ends the search as one that is live does, and changes nothing. So do a fault of the
    /// device, a page that is not the expected one, and `AllocError`.
    pub fn get(&mut self, key: &Key, moment: u64) -> Result<Answer, AllocError>
        ensures { StoreGets PAGE D.honest D.failures D.held key.now moment self.old result self.new }
    {
        let key = key.bytes();
        match self.look_in_memory(key, moment) {
            MemoryAnswer::Live(timed) => {
                let expires = timed.expires;
                let value = timed.value.try_clone()?;
                self.touch(key, &Located::Memory { expires });
                Ok(Answer::Hit(value, Tier::Memory))
            }
            MemoryAnswer::Expired => Ok(Answer::Miss(MissCause::Expired)),
            MemoryAnswer::Absent => match self.get_below(key, moment) {
                Ok(answer) => Ok(answer),
                Err(refused) => Err(refused),
            },
        }
    }

    /// The value that the key with these bytes has at a moment, as `get` has it, into room of the caller's: a hit
    /// leaves the value in the buffer and tells when it expires, and a miss leaves the buffer as it was. Bytes that are no key are absent. No
    /// memory is taken.
    pub fn get_into(&mut self, key: &[u8], moment: u64, found: &mut ValueBuffer) -> AnswerKind
        ensures gets { StoreGets PAGE D.honest D.failures D.held key.now moment self.old
            (Ok (answer_of result found.new)) self.new }
        ensures stays { OnFalse (is_hit result) (found.new ≡ found.old) }
        // When a value expires.
        ensures expires { TellsExpiry D.honest D.held key.now self.old (expiry_in_memory result)
            (expiry_of result) found.new }
    {
        let at = self.locate(key, moment, found);
        self.touch(key, &at);
        at.kind()
    }

    // What memory has of a key.
    fn look_in_memory(&self, key: &[u8], moment: u64) -> MemoryAnswer<'_>
        ensures value { value_of result ≡ option_map (value_at moment) (value_in key.now self.now.memory.pairs) }
        ensures whole { IsRecalled (value_in key.now self.now.memory.pairs) result }
    {
        match self.memory.peek_bytes(key) {
            None => MemoryAnswer::Absent,
            Some(timed) if timed.is_live(moment) => MemoryAnswer::Live(timed),
            Some(_) => MemoryAnswer::Expired,
        }
    }

    // Where a key is found, in any tier. Its value goes into the buffer. Nothing changes but the device.
    fn locate(&mut self, key: &[u8], moment: u64, found: &mut ValueBuffer) -> Located
        ensures gets { StoreGets PAGE D.honest D.failures D.held key.now moment self.old
            (Ok (answer_at result found.new)) (touched key.now result self.new) }
        ensures unchanged { self.new ≡ record self.old { device = self.new.device } }
        ensures can { CanTouch result self.new }
        ensures stays { OnFalse (has_value result) (found.new ≡ found.old) }
        ensures expires { TellsExpiry D.honest D.held key.now self.old (expiry_at_memory result)
            (expiry_at result) found.new }
    {
        match self.look_in_memory(key, moment) {
            MemoryAnswer::Live(timed) => {
                found.set(timed.value.bytes());
                Located::Memory {
                    expires: timed.expires,
                }
            }
            MemoryAnswer::Expired => Located::Miss(MissCause::Expired),
            MemoryAnswer::Absent => {
                let placed = self.place_bytes(key);
                let device = &mut self.device;
                locate_below(&self.log, &self.sets, device, &placed, key, moment, found)
            }
        }
    }

    // Notes that what was located was asked for. It cannot fail, and makes no call of the device.
    fn touch(&mut self, key: &[u8], at: &Located)
        requires { CanTouch at.now self.old }
        ensures { self.new ≡ touched key.now at.now self.old }
    {
        match at {
            Located::Memory { .. } => self.memory.raise(key),
            Located::Log { entry, .. } => self.log.touch(entry),
            Located::Set { set, slot, .. } => self.sets.touch(*set, *slot),
            Located::Miss(_) => {}
        }
    }

    // The value of a key that memory does not have.
    fn get_below(&mut self, key: &[u8], moment: u64) -> Result<Answer, AllocError>
        requires { value_in key.now self.old.memory.pairs ≡ None }
        ensures { StoreGets PAGE D.honest D.failures D.held key.now moment self.old result self.new }
    {
        let placed = self.place_bytes(key);
        let found = &mut self.found;
        let at = locate_below(
            &self.log,
            &self.sets,
            &mut self.device,
            &placed,
            key,
            moment,
            found,
        );
        match at.answer(self.alloc, &self.found) {
            Ok(answer) => {
                self.touch(key, &at);
                Ok(answer)
            }
            Err(short) => Err(short),
        }
    }
}
