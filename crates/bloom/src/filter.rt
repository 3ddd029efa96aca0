// The filter of one set of keys.
ghost use Rattle.std.specs.Prelude.{◌≡◌, ◌↔◌, ℕ, List, IsTrue};
ghost use Rattle.std.specs.Ordering.{nat_cmp};
ghost use Rattle.std.specs.FinSet as set;
ghost use Rattle.std.specs.Coded.{coded_ℕ};
ghost use Rattle.bloom.specs.Filter.{set_bits, with_bits, admits};

use std::marker::Model;

/// A Bloom filter of 256 bits. A key asks for four of them, its probes, each a number from 0 to 255.
///
/// It is the set of the numbers of its bits, so it admits whatever was added since it was empty, and denies
/// whatever asks for a bit that none of these asked for.
#[derive(Clone, Drop)]
pub struct Filter {
    words: [u64; 4],
}

/// The numbers of its bits.
impl Model for Filter {
    ghost Value = { set.FinSet nat_cmp };

    ghost coded = { set.code coded_ℕ };

    ghost view = { λ f. set_bits f.words };
}

impl Filter {
    /// The filter with no bit.
    pub fn empty() -> Filter
        ensures { result ≡ set.empty }
    {
        Filter { words: [0; 4] }
    }

    /// Whether the filter has no bit, so that it denies each key.
    pub fn is_empty(&self) -> bool
        ensures { IsTrue result ↔ (self.now ≡ set.empty) }
    {
        let [first, second, third, fourth] = self.words;
        first | second | third | fourth == 0
    }

    /// Adds the bits of a key.
    pub fn add(&mut self, probes: [u8; 4])
        ensures bits { self.new ≡ with_bits self.old probes }

        // What was added is admitted, now and until the filter is cleared.
        ensures added { IsTrue (admits self.new probes) }
        ensures kept { (others : List ℕ) → IsTrue (admits self.old others) →
            IsTrue (admits self.new others) }
    {
        for probe in probes {
            self.set_bit(probe);
        }
    }

    /// Whether each bit of a key is there. If it is not, the key was not added since the filter was empty.
    pub fn may_hold(&self, probes: [u8; 4]) -> bool
        ensures { result ≡ admits self.now probes }
    {
        probes.iter().all(|probe| self.has_bit(*probe))
    }

    /// Takes all bits away.
    pub fn clear(&mut self)
        ensures { self.new ≡ set.empty }
    {
        self.words = [0; 4];
    }

    fn set_bit(&mut self, bit: u8)
        ensures { self.new ≡ set.insert self.old bit }
    {
        self.words[bit as usize / 64] |= 1 << (bit % 64);
    }

    fn has_bit(&self, bit: u8) -> bool
        ensures { result ≡ set.contains self.now bit }
    {
        (self.words[bit as usize / 64] >> (bit % 64)) & 1 == 1
    }
}
