// Which keys were met before.
ghost use Rattle.std.specs.Prelude.{◌≡◌, ◌<◌, ◌≤◌, ◌^◌, IfOk, if◌then◌else◌};
ghost use Rattle.sight_sketch.specs.Sketch.{numbers_of, places_of, is_last, is_seen, joined, noted, turned, no_sights};

use crate::bit_row::BitRow;
use std::alloc::{AllocError, Global};
use std::marker::Model;

/// The most words of a half.
pub const MAX_SIGHT_WORDS: usize = 4_294_967_295;

/// Keys of each of which a new bit is set for 64 bits of a half, before the halves change.
const FRESH_PER_WORD: u64 = 11;

/// Which keys were met before, by the hashes of their names. It answers "yes" for each key that was met since the last two changes
/// of its halves, and for some that were not: how many of these there are depends on how its bits are filled.
///
/// It has two halves of bits, and a key sets four bits of the first half. Once eleven keys for each 64 bits set a new bit, the
/// second half is cleared and becomes the first.
#[derive(Drop)]
pub struct SightSketch {
    current: BitRow,
    older: BitRow,
    fresh: u64,
}

impl Model for SightSketch {
    ghost use Rattle.sight_sketch.specs.Sketch.{Sights, IsSketch, sights_code};

    ghost Value = { Sights };

    ghost coded = { sights_code };

    ghost view = { λ s. record {
      size = s.current.size;
      current = s.current.bits;
      older = s.older.bits;
      fresh = s.fresh;
    } };

    ghost invariant = { λ s. IsSketch s.current.size s.older.size s.fresh };
}

impl SightSketch {
    ghost use Rattle.sight_sketch.specs.declared.sketch.TheConstants.{MAX_SIGHT_WORDS};
    ghost use Rattle.sight_sketch.specs.Sketch.{most_fresh};

    /// The sketch that met no key. It takes 16 bytes of memory for each word of a half; nothing is made if that is refused.
    pub fn new(alloc: Global, words: usize) -> Result<SightSketch, AllocError>
        requires some { 1 ≤ words }
        requires few { words ≤ MAX_SIGHT_WORDS }
        ensures { IfOk result (λ sketch. sketch ≡ no_sights words) }
    {
        let current = BitRow::new(alloc, words)?;
        let older = BitRow::new(alloc, words)?;
        Ok(SightSketch {
            current,
            older,
            fresh: 0,
        })
    }

    /// How many bits a half has.
    pub fn half_bits(&self) -> u64
        ensures bits { result ≡ self.now.size }
        ensures some { 64 ≤ result }
        ensures few { result < 2 ^ 38 }
        ensures fresh { self.now.fresh < most_fresh self.now.size }
    {
        self.current.size()
    }

    /// Whether a key with this hash was met before. It is met now.
    pub fn meet(&mut self, hash: u64) -> bool
        ensures seen { result ≡ is_seen self.old hash }
        ensures noted { self.new ≡ noted self.old hash }
    {
        let numbers = numbers_of(hash);
        if self.current.has_all(numbers) {
            return true;
        }
        let is_seen = self.older.has_all(numbers);
        self.join(numbers);
        is_seen
    }

    // The bits of these numbers join the first half, one of which is new.
    fn join(&mut self, numbers: [u64; 4])
        ensures { let probes = places_of self.old.size numbers in
            self.new ≡ (if is_last self.old then turned (joined self.old probes) else joined self.old probes) }
    {
        let most = FRESH_PER_WORD * (self.current.size() / 64);
        self.current.set_all(numbers);
        self.fresh += 1;
        if most <= self.fresh {
            std::mem::swap(&mut self.current, &mut self.older);
            self.current.clear();
            self.fresh = 0;
        }
    }
}

/// A key's four numbers.
fn numbers_of(hash: u64) -> [u64; 4]
    ensures { result ≡ numbers_of hash }
{
    let low = hash % 4_294_967_296;
    let high = hash >> 32;
    [low, low + high, low + 2 * high, low + 3 * high]
}
