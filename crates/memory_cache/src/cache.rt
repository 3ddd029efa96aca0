// The objects in memory, the most recent first.
ghost use Rattle.std.specs.Prelude.{◌≡◌, ◌≤◌, ◌↔◌, [], length, option_copied, option_map, IfOk, IfErr, OnOk, OnErr, IsSome, IsOk, IsTrue};
ghost use Rattle.std.specs.Borrow.{sem};
ghost use Rattle.memory_cache.specs.MemoryList.{IsBounded, value_in, empty, after_put, pushed_out, last_pair, leaving_for, after_get, after_remove};

use crate::key_bytes::KeyBytes;
use crate::pair::Pair;
use key_hash::RandomSeed;
use lru::LruCache;
use record_pages::{Key, TimedValue};
use std::alloc::{AllocError, AllocFailed, Global};
use std::marker::Model;
use std::num::NonZeroUsize;

/// A bounded number of objects, each under its key, in the order of their last use.
///
/// Its memory grows with the objects that it holds, and not with its capacity.
#[derive(Drop)]
pub struct MemoryCache {
    objects: LruCache<Key, TimedValue, RandomSeed>,
}

impl Model for MemoryCache {
    ghost use Rattle.memory_cache.specs.MemoryList.{MemoryList};
    ghost use Rattle.memory_cache.specs.Entries.{memory_of};

    ghost Value = { MemoryList };

    ghost view = { λ m. memory_of m.objects };
}

impl MemoryCache {
    ghost use Rattle.memory_cache.specs.Lending.{EndsAs};
    ghost use Rattle.record_pages.specs.declared.timed_value.TimedValue.{TimedValue};

    /// An empty memory for this many objects, or `AllocError` if memory was refused. Its table hashes by a seed that is
    /// the same in every run.
    pub fn open(alloc: Global, capacity: u32) -> Result<MemoryCache, AllocError>
        requires { 1 ≤ capacity }
        ensures { IfOk result (λ memory. memory ≡ empty capacity) }
    {
        MemoryCache::with_seed(alloc, capacity, RandomSeed::fixed())
    }

    /// An empty memory, as `open` makes it, whose table hashes by this seed. Whoever does not know it can't pick keys
    /// that collide in the table.
    pub fn with_seed(
        alloc: Global,
        capacity: u32,
        seed: RandomSeed,
    ) -> Result<MemoryCache, AllocError>
        requires { 1 ≤ capacity }
        ensures { IfOk result (λ memory. memory ≡ empty capacity) }
    {
        let most = NonZeroUsize::new(capacity as usize).unwrap();
        // Neither reserves room for the objects to come.
        let mut objects = LruCache::unbounded_with_hasher(alloc, seed)?;
        objects.resize(most);
        Ok(MemoryCache { objects })
    }

    /// How many objects are held.
    pub fn len(&self) -> usize
        ensures count { result ≡ length self.now.pairs }
        ensures bounded { IsBounded self.now }
    {
        self.objects.len()
    }

    /// Whether no object is held.
    pub fn is_empty(&self) -> bool
        ensures { IsTrue result ↔ (self.now.pairs ≡ []) }
    {
        self.objects.is_empty()
    }

    /// The most objects that may be held.
    pub fn capacity(&self) -> usize
        ensures { result ≡ self.now.capacity }
    {
        self.objects.cap().get()
    }

    /// The value of a key, whose pair stays in its place.
    pub fn peek(&self, key: &Key) -> Option<&TimedValue>
        ensures { option_copied result ≡ value_in key.now self.now.pairs }
    {
        self.peek_bytes(key.bytes())
    }

    /// The value of the key with these bytes, as `peek` has it. None has it if they are no key.
    pub fn peek_bytes(&self, key: &[u8]) -> Option<&TimedValue>
        ensures { option_copied result ≡ value_in key.now self.now.pairs }
    {
        self.objects.peek(KeyBytes(key))
    }

    /// The value of a key, whose pair comes to the front.
    pub fn get(&mut self, key: &Key) -> Option<&TimedValue>
        ensures* raised { sem 𝓛 (EndsAs self.entry (after_get key.now self.old)) }
        ensures value { option_copied result ≡ value_in key.now self.old.pairs }
    {
        self.get_bytes(key.bytes())
    }

    // The same by the key's bytes.
    fn get_bytes(&mut self, key: &[u8]) -> Option<&TimedValue>
        ensures* raised { sem 𝓛 (EndsAs self.entry (after_get key.now self.old)) }
        ensures value { option_copied result ≡ value_in key.now self.old.pairs }
    {
        know_valid(&self.objects);
        self.objects.get(KeyBytes(key))
    }

    /// Brings the pair of the key with these bytes to the front, if there is one.
    pub fn raise(&mut self, key: &[u8])
        ensures { self.new ≡ after_get key.now self.old }
    {
        know_valid(&self.objects);
        let _held = self.objects.promote(KeyBytes(key));
    }

    /// Puts a value first, in place of an older one of its key. Gives the pair of another key that had
    /// to leave for it.
    ///
    /// If memory was refused the pair comes back and nothing has changed: an older value of the key
    /// stays. That cannot be if the key has a value.
    pub fn put(&mut self, key: Key, value: TimedValue) -> Result<Option<Pair>, Pair>
        ensures out { IfOk result (λ out.
            out ≡ pushed_out (record { key = key; value = value }) self.old) }
        ensures after { OnOk result
            (self.new ≡ after_put (record { key = key; value = value }) self.old) }
        ensures handed_back { IfErr result (λ pair. pair ≡ record { key = key; value = value }) }
        ensures err { OnErr result (self.new ≡ self.old) }
        ensures replaces { IsSome (value_in key self.old.pairs) → IsOk result }
    {
        know_valid(&self.objects);
        match self.objects.push(key, value) {
            Ok(Some((key, value))) => Ok(unless_first(&self.objects, Pair { key, value })),
            Ok(None) => Ok(None),
            Err(
                AllocFailed {
                    value: (key, value),
                },
            ) => Err(Pair { key, value }),
        }
    }

    /// The key of the pair that was used least recently.
    pub fn last(&self) -> Option<&Key>
        ensures { option_copied result ≡ option_map (λ pair. pair.key) (last_pair self.now.pairs) }
    {
        let (key, _) = self.objects.peek_lru()?;
        Some(key)
    }

    /// The key of the pair that would have to leave for one of the key with these bytes: that of `last` if as many objects
    /// are held as may be and the key has none, else no key.
    pub fn leaving(&self, key: &[u8]) -> Option<&Key>
        ensures key { option_copied result
            ≡ option_map (λ pair. pair.key) (leaving_for key.now self.now) }

        // It is what a put of the key pushes out, whatever the value.
        ensures pushed { (value : TimedValue) → option_copied result
            ≡ option_map (λ pair. pair.key)
            (pushed_out (record { key = key.now; value = value }) self.now) }
    {
        if self.len() < self.capacity() || self.peek_bytes(key).is_some() {
            return None;
        }
        self.last()
    }

    /// Takes the key's pair out and gives its value.
    pub fn remove(&mut self, key: &Key) -> Option<TimedValue>
        ensures value { result ≡ value_in key.now self.old.pairs }
        ensures after { self.new ≡ after_remove key.now self.old }
    {
        self.remove_bytes(key.bytes())
    }

    /// Takes the pair of the key with these bytes out and gives its value, as `remove` does.
    pub fn remove_bytes(&mut self, key: &[u8]) -> Option<TimedValue>
        ensures value { result ≡ value_in key.now self.old.pairs }
        ensures after { self.new ≡ after_remove key.now self.old }
    {
        know_valid(&self.objects);
        self.objects.pop(KeyBytes(key))
    }
}

ghost use Rattle.std.specs.Prelude.{nat_eq, if◌then◌else◌};
ghost use Rattle.std.specs.Cmp.Lexicographic.{pointwise};
ghost use Rattle.lru.specs.LruCache.{IsValid};
ghost use Rattle.memory_cache.specs.Entries.{is_first};

/// Ghost: reading the length brings the map's invariant, that no key stands twice, into scope.
fn know_valid(objects: &LruCache<Key, TimedValue, RandomSeed>)
    ensures { IsValid (pointwise nat_eq) objects.now }
{
    let _held = objects.len();
}

/// The pair that left, unless it is the older one of the key that is first now.
fn unless_first(objects: &LruCache<Key, TimedValue, RandomSeed>, left: Pair) -> Option<Pair>
    ensures { result ≡ (if is_first left.key objects.now.entries then None else Some left) }
{
    match objects.peek_mru() {
        Some((first, _)) if *first == left.key => None,
        _ => Some(left),
    }
}
