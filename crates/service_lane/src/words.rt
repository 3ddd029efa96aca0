// The words of admission of a lane.
ghost use Rattle.std.specs.Prelude.{◌≡◌};
ghost use Rattle.service_lane.specs.Words.{words_for};

use key_hash::RandomSeed;
use rand_pcg::Lcg64Xsh32;
use std::hash::BuildHasher;

/// The generator of the words of admission of the lane with this number: a hash of the number by the seed starts it, on a stream
/// of the number's own (O'Neill 2014).
#[tactic(auto, unfolding(crate::specs::Words::words_for))]
pub fn words_of(seed: RandomSeed, number: u32) -> Lcg64Xsh32
    ensures { result ≡ words_for seed number }
{
    Lcg64Xsh32::new(seed.hash_one(u64::from(number)), u64::from(number))
}
