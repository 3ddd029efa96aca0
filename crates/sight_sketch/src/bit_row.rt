// Bits that are set one by one, and cleared all together.
ghost use Rattle.std.specs.Prelude.{◌≡◌, ◌*◌, ◌%◌, ◌<◌, ◌≤◌, ◌^◌, length, replicate, IfOk};
ghost use Rattle.std.specs.FinSet as set;
ghost use Rattle.sight_sketch.specs.Sketch.{has_places, with_place, with_places};

use std::alloc::{AllocError, Global};
use std::marker::Model;

/// Bits with numbers from 0. A number of a bit may be any: it counts modulo the number of bits.
#[derive(Drop)]
pub(crate) struct BitRow {
    words: Vec<u64>,
}

/// How many bits there are, and the numbers of those that are set.
impl Model for BitRow {
    ghost use Rattle.std.specs.Prelude.{length};
    ghost use Rattle.sight_sketch.specs.Sketch.{Row, IsRow, row_code, row_of};

    ghost Value = { Row };

    ghost coded = { row_code };

    ghost view = { λ r. row_of r.words.items };

    ghost invariant = { λ r. IsRow (length r.words.items) };
}

impl BitRow {
    /// Bits, 64 for each word, none of which is set.
    pub(crate) fn new(alloc: Global, words: usize) -> Result<BitRow, AllocError>
        requires some { 0 < words }
        requires few { words < 2 ^ 32 }
        ensures { IfOk result (λ row. row ≡ record { size = 64 * words; bits = set.empty }) }
    {
        let words = vec![in alloc; 0u64; words]?;
        Ok(BitRow { words })
    }

    /// How many bits there are.
    pub(crate) fn size(&self) -> u64
        ensures size { result ≡ self.now.size }
        ensures some { 64 ≤ result }
        ensures few { result < 2 ^ 38 }
    {
        64 * self.words.len() as u64
    }

    /// Whether the bits of all these numbers are set.
    pub(crate) fn has_all(&self, numbers: [u64; 4]) -> bool
        ensures { result ≡ has_places self.now numbers }
    {
        numbers.iter().all(|number| self.has(*number))
    }

    /// Sets the bits of these numbers.
    pub(crate) fn set_all(&mut self, numbers: [u64; 4])
        ensures { self.new ≡ with_places self.old numbers }
    {
        for number in numbers {
            self.set(number);
        }
    }

    /// Clears all bits.
    pub(crate) fn clear(&mut self)
        ensures { self.new ≡ record { size = self.old.size; bits = set.empty } }
    {
        zero(&mut self.words);
    }

    fn has(&self, number: u64) -> bool
        ensures { result ≡ set.contains self.now.bits (number % self.now.size) }
    {
        let bit = (number % self.size()) as usize;
        (self.words[bit / 64] >> (bit % 64)) & 1 == 1
    }

    fn set(&mut self, number: u64)
        ensures { self.new ≡ with_place self.old number }
    {
        let bit = (number % self.size()) as usize;
        self.words[bit / 64] |= 1 << (bit % 64);
    }
}

fn zero(words: &mut [u64])
    ensures { words.new ≡ replicate (length words.old) 0 }
{
    words.fill(0);
}
