// What makes a hasher for each key.
ghost use Rattle.std.specs.Prelude.{◌≡◌};
ghost use Rattle.key_hash.specs.Hashing.{started, fixed_seed, derived};

use crate::key_hasher::{KeyHasher, fold};
use std::hash::BuildHasher;
use std::io;
use std::random::RandomSource;

/// A seed, by which a map hashes its keys.
///
/// It is drawn so that whoever does not know it can't pick keys beforehand that are known to collide
/// under it. That is not proved, and nothing is claimed against one who can watch how long look-ups take
/// or try out many keys.
#[derive(Clone, Copy)]
pub struct RandomSeed {
    start: u64,
    multiplier: u64,
}

impl RandomSeed {
    /// Draws a seed.
    pub fn draw(source: &impl RandomSource) -> io::Result<RandomSeed> {
        let mut bytes = [0; 16];
        source.fill_bytes(&mut bytes)?;
        let seed = u128::from_le_bytes(bytes);
        Ok(RandomSeed {
            start: (seed & 0xffff_ffff_ffff_ffff) as u64,
            multiplier: (seed >> 64) as u64,
        })
    }

    /// The seed that is the same in every run, of fractional bits of pi. It is for maps whose keys no stranger picks:
    /// whoever reads this can pick keys that collide under it.
    pub fn fixed() -> RandomSeed
        ensures { result ≡ fixed_seed }
    {
        RandomSeed {
            start: 0x243f_6a88_85a3_08d3,
            multiplier: 0x1319_8a2e_0370_7344,
        }
    }

    /// Another seed, made of this one and a number. Who hashes the same keys for several uses gives each use a number
    /// of its own, so that keys that one use has put together are apart in the others.
    pub fn derive(self, number: u32) -> RandomSeed
        ensures { result ≡ derived self number }
    {
        let twice = 2 * number as u64;
        RandomSeed {
            start: fold(self.start ^ twice, self.multiplier),
            multiplier: fold(self.start ^ (twice + 1), self.multiplier),
        }
    }
}

impl BuildHasher for RandomSeed {
    type Hasher = KeyHasher;

    ghost build_hasher = { started };

    fn build_hasher(&self) -> KeyHasher {
        KeyHasher {
            state: self.start,
            multiplier: self.multiplier,
        }
    }
}
