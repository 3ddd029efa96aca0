// The slots for leases: how many writes the keys of each have seen.
ghost use Rattle.std.specs.Prelude.{◌≡◌, ◌<◌, ◌≤◌, ◌↔◌, ◌/◌, ◌%◌, ◌^◌, length, IfOk, IsTrue};
ghost use Rattle.service_lane.specs.Leases.{hash_by, lease_for, no_writes, slot_for, with_write_in, HoldsLease};

use crate::lease::Lease;
use key_hash::RandomSeed;
use std::alloc::{AllocError, Global};
use std::hash::{BuildHasher, Hasher};
use std::marker::Model;

/// How many writes the keys of each slot have seen. A key has its slot by a hash with the seed. A slot stops at 2^64 - 1, and no
/// lease of it holds from then on.
#[derive(Drop)]
pub(crate) struct Slots {
    lane: u32,
    seed: RandomSeed,
    writes: Vec<u64>,
}

impl Model for Slots {
    ghost use Rattle.std.specs.Prelude.{◌≤◌, length};
    ghost use Rattle.service_lane.specs.Leases.{LeaseSlots};

    ghost Value = { LeaseSlots };

    ghost view = { λ s. record { lane = s.lane; seed = s.seed; writes = s.writes.items } };

    ghost invariant = { λ s. 1 ≤ length s.writes.items };
}

impl Slots {
    /// This many slots of the lane of a number, which have seen no write, or `AllocError` if memory was refused.
    pub(crate) fn open(
        alloc: Global,
        lane: u32,
        seed: RandomSeed,
        count: u32,
    ) -> Result<Slots, AllocError>
        requires { 1 ≤ count }
        ensures { IfOk result (λ slots. slots ≡ no_writes lane seed count) }
    {
        let mut writes = Vec::with_capacity(alloc, count as usize)?;
        for _ in 0..count {
            writes.push(0)?;
        }
        Ok(Slots { lane, seed, writes })
    }

    /// How many slots there are, one at least.
    pub(crate) fn count(&self) -> usize
        ensures count { result ≡ length self.now.writes }
        ensures some { 1 ≤ length self.now.writes }
    {
        self.writes.len()
    }

    /// A lease of a key, of now.
    pub(crate) fn lease(&self, key: &[u8]) -> Lease
        ensures { result ≡ lease_for self.now key.now }
    {
        let hash = hash_by(self.seed, key);
        Lease {
            writes: self.writes[self.slot_by(hash)],
            hash,
            lane: self.lane,
        }
    }

    /// Whether a lease is of this lane and of this key, and has not ended.
    pub(crate) fn holds(&self, key: &[u8], lease: Lease) -> bool
        ensures { IsTrue result ↔ HoldsLease self.now key.now lease }
    {
        self.lease(key) == lease && lease.writes < u64::MAX
    }

    /// Counts a write of a key of this slot.
    pub(crate) fn wrote_in(&mut self, slot: usize)
        requires { slot < length self.old.writes }
        ensures { self.new ≡ with_write_in self.old slot }
    {
        let seen = self.writes[slot];
        if seen < u64::MAX {
            self.writes[slot] = seen + 1;
        }
    }

    /// The slot of a key.
    pub(crate) fn slot(&self, key: &[u8]) -> usize
        ensures slot { result ≡ slot_for self.now key.now }
        ensures within { result < length self.now.writes }
    {
        self.slot_by(hash_by(self.seed, key))
    }

    // The slot of a key with this hash.
    fn slot_by(&self, hash: u64) -> usize
        ensures slot { result ≡ hash / 2 ^ 32 % length self.now.writes }
        ensures within { result < length self.now.writes }
    {
        (hash >> 32) as usize % self.writes.len()
    }
}

/// The hash of bytes by a seed.
#[tactic(auto, unfolding(crate::specs::Leases::hash_by))]
pub fn hash_by(seed: RandomSeed, bytes: &[u8]) -> u64
    ensures { result ≡ hash_by seed bytes.now }
{
    let mut hasher = seed.build_hasher();
    hasher.write(bytes);
    hasher.finish()
}
