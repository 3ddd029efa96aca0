// A seed as C draws it.
ghost use Rattle.std.specs.Prelude.{◌≡◌};
ghost use Rattle.c_lane.specs.Placing.{seed_of};

use key_hash::RandomSeed;

/// 16 bytes that were drawn at random. Who does not know them can't pick keys beforehand for one lane, or that collide in its
/// tables.
#[repr(C)]
#[derive(Clone, Copy)]
pub struct Seed {
    /// The first eight of them.
    pub first: u64,
    /// The last eight.
    pub second: u64,
}

impl Seed {
    // The seed of tables that is made of them.
    #[tactic(auto, unfolding(crate::specs::Placing::seed_of))]
    pub(crate) fn random(&self) -> RandomSeed
        ensures { result ≡ seed_of self.now }
    {
        RandomSeed::fixed()
            .derive(low(self.first))
            .derive(high(self.first))
            .derive(low(self.second))
            .derive(high(self.second))
    }
}

ghost use Rattle.c_lane.specs.Placing.{low_half, high_half};

// The low half of a word.
fn low(word: u64) -> u32
    ensures { result ≡ low_half word }
{
    (word % 0x1_0000_0000) as u32
}

// The high half of a word.
fn high(word: u64) -> u32
    ensures { result ≡ high_half word }
{
    (word / 0x1_0000_0000) as u32
}
