// A table of ranks, by which they are drawn.
ghost use Rattle.std.specs.Prelude.{◌≡◌, ◌≤◌, ◌<◌, ◌*◌, ◌/◌, IfOk};
ghost use Rattle.zipf.specs.Holding.{most_ranks};
ghost use Rattle.zipf.specs.Weights.{rank_of};

use crate::sums::{MOST_SUMS, added, place_of, rank_from, sums_of};
use std::alloc::{AllocError, Global};
use std::marker::Model;

/// Ranks that are drawn by Zipf's law with exponent 1: the first, 0, twice as often as 1 and three times as often as 2. Clauses see
/// how many ranks there are.
///
/// It has the weights before each rank, or of more than `MOST_SUMS` ranks before one of several, so its memory is at most 8 MiB.
#[derive(Drop)]
pub struct Ranks {
    sums: Vec<u64>,
    step: u32,
    total: u64,
    ranks: u32,
}

impl Model for Ranks {
    ghost use Rattle.std.specs.Prelude.{ℕ};
    ghost use Rattle.zipf.specs.Holding.{HoldsRanks};

    ghost Value = { ℕ };

    ghost view = { λ r. r.ranks };

    ghost invariant = { λ r. HoldsRanks r.sums.items r.step r.total r.ranks };
}

impl Ranks {
    /// So many ranks. It is an error only if memory runs out.
    pub fn new(alloc: Global, ranks: u32) -> Result<Ranks, AllocError>
        requires some { 1 ≤ ranks }
        requires few { ranks ≤ most_ranks }
        ensures { IfOk result (λ made. made ≡ ranks) }
    {
        let step = (ranks - 1) / MOST_SUMS + 1;
        let sums = sums_of(alloc, ranks, step)?;
        let total = added(0, 0, ranks);
        Ok(Ranks {
            sums,
            step,
            total,
            ranks,
        })
    }

    /// How many ranks there are.
    pub fn len(&self) -> u32
        ensures { result ≡ self.now }
    {
        self.ranks
    }

    /// The rank that a random word draws.
    pub fn rank(&self, word: u32) -> u32
        ensures rank { result ≡ rank_of self.now word }
        ensures within { result < self.now }
    {
        let point = point_of(word, self.total);
        let place = place_of(&self.sums, point);
        rank_from(
            point,
            place as u32 * self.step,
            self.sums[place],
            self.ranks,
        )
    }
}

/// The point to which a word leads in weights of this total.
fn point_of(word: u32, total: u64) -> u64
    requires { 0 < total }
    ensures point { result ≡ word * total / 4294967296 }
    ensures within { result < total }
{
    (u128::from(word) * u128::from(total) / 4_294_967_296) as u64
}
