// Copies in memory of objects on flash.
ghost use Rattle.std.specs.Prelude.{◌≡◌, ◌≤◌, [], None, IfOk, OnOk, OnErr, IsSome, option_map};
ghost use Rattle.record_pages.specs.Expiry.{timed};
ghost use Rattle.memory_cache.specs.MemoryList.{after_get, after_put, after_remove, pushed_out};
ghost use Rattle.service_lane.specs.Copies.{copied_pairs, copies_for, no_copies, with_held, live_copy, is_copy_due, hit_counted};

use key_hash::RandomSeed;
use memory_cache::{MemoryCache, Pair};
use record_pages::{Key, TimedValue, Value, ValueBuffer};
use std::alloc::{AllocError, Global};
use std::marker::Model;

/// Copies in memory of objects on flash, the most recent first. Of so many hits on flash one has its object copied.
#[derive(Drop)]
pub(crate) struct Copies {
    alloc: Global,
    every: u32,
    left: u32,
    held: MemoryCache,
}

impl Model for Copies {
    ghost use Rattle.service_lane.specs.Copies.{CopyList};

    ghost Value = { CopyList };

    ghost view = { λ c. record { every = c.every; left = c.left; held = c.held } };
}

impl Copies {
    /// No copy yet, with room for so many; or `AllocError`.
    pub(crate) fn open(
        alloc: Global,
        every: u32,
        objects: u32,
        seed: RandomSeed,
    ) -> Result<Copies, AllocError>
        requires { 1 ≤ objects }
        ensures { IfOk result (λ copies. copies ≡ no_copies every objects) }
    {
        let held = MemoryCache::with_seed(alloc, objects, seed)?;
        Ok(Copies {
            alloc,
            every,
            left: every,
            held,
        })
    }

    /// The live copy of a key: its value goes into the buffer, and it comes to the front. When it expires; none if there is no
    /// live one, and then nothing changes.
    pub(crate) fn recall(&mut self, key: &[u8], moment: u64, found: &mut ValueBuffer) -> Option<u64>
        ensures copy { live_copy key.now moment self.old ≡ option_map (timed found.new) result }
        ensures raised { IsSome result → self.new ≡ with_held (after_get key.now) self.old }
        ensures stays { (result ≡ None) → self.new ≡ self.old }
        ensures untouched { (result ≡ None) → found.new ≡ found.old }
    {
        let expires = self.lend(key, moment, found)?;
        self.held.raise(key);
        Some(expires)
    }

    // The same, whose copy stays in its place.
    fn lend(&self, key: &[u8], moment: u64, found: &mut ValueBuffer) -> Option<u64>
        ensures copy { live_copy key.now moment self.now ≡ option_map (timed found.new) result }
        ensures untouched { (result ≡ None) → found.new ≡ found.old }
    {
        // no hash of the key for an empty list
        if self.held.is_empty() {
            return None;
        }
        match self.held.peek_bytes(key) {
            Some(timed) if timed.is_live(moment) => {
                found.set(timed.value.bytes());
                Some(timed.expires)
            }
            _ => None,
        }
    }

    /// Counts a hit on flash. Whether its object is to be copied.
    pub(crate) fn count_hit(&mut self) -> bool
        ensures due { result ≡ is_copy_due self.old }
        ensures counted { self.new ≡ hit_counted self.old }
    {
        if self.left > 1 {
            self.left -= 1;
            return false;
        }
        self.left = self.every;
        true
    }

    /// Copies an object. The copy that had to leave for it, if there is no room for both; or `AllocError`, and then nothing changes.
    pub(crate) fn make(
        &mut self,
        key: &[u8],
        value: &[u8],
        expires: u64,
    ) -> Result<Option<Pair>, AllocError>
        ensures out { IfOk result (λ out. out ≡ pushed_out
            (record { key = key.now; value = timed value.now expires }) self.old.held) }
        ensures made { OnOk result (self.new ≡ with_held
            (after_put (record { key = key.now; value = timed value.now expires })) self.old) }
        ensures refused { OnErr result (self.new ≡ self.old) }
    {
        let Ok(key) = Key::new(self.alloc, key) else {
            return Err(AllocError);
        };
        let Ok(value) = Value::new(self.alloc, value) else {
            return Err(AllocError);
        };
        match self.held.put(key, TimedValue { value, expires }) {
            Ok(out) => Ok(out),
            Err(_) => Err(AllocError),
        }
    }

    /// Takes the copy of a key away, if there is one.
    pub(crate) fn forget(&mut self, key: &[u8])
        ensures { self.new ≡ with_held (after_remove key.now) self.old }
    {
        if self.held.is_empty() {
            return;
        }
        let _copy = self.held.remove_bytes(key);
    }
}

/// No copy yet, of one in `every` hits on flash, with room for so many objects; or no room at all, if either is 0; or `AllocError`.
pub(crate) fn open_copies(
    alloc: Global,
    every: u32,
    objects: u32,
    seed: RandomSeed,
) -> Result<Option<Copies>, AllocError>
    ensures kept { IfOk result (λ copies. copies ≡ copies_for every objects) }
    ensures none { IfOk result (λ copies. copied_pairs copies ≡ []) }
{
    if every == 0 || objects == 0 {
        return Ok(None);
    }
    Ok(Some(Copies::open(alloc, every, objects, seed)?))
}
