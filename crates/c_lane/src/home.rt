// Which lane of its cache a lane is.
ghost use Rattle.std.specs.Prelude.{◌≡◌, ◌≤◌, ◌==◌, true, ℕ, List};
ghost use Rattle.record_pages.specs.Bounded.{IsKey};
ghost use Rattle.c_lane.specs.Homes.{lanes_of, home_of, is_key, is_own, is_foreign};
ghost use Rattle.c_lane.specs.Placing.{place_in};

use crate::lane_shape::LaneShape;
use crate::seed::Seed;
use key_hash::RandomSeed;
use record_pages::Key;
use service_lane::hash_by;

/// Which lane of its cache a lane is, and by what keys are placed among the lanes.
#[derive(Clone, Copy)]
pub struct LaneHome {
    /// The seed of places, which is kept ready.
    pub seed: RandomSeed,
    /// How many lanes there are.
    pub lanes: u64,
    /// The number of this one.
    pub number: u32,
}

impl LaneHome {
    /// The lane of a number, in a cache of a shape with a seed. A key is its own exactly if `place_of` says so.
    #[tactic(auto, unfolding(crate::specs::Placing::place_in))]
    pub fn of(shape: &LaneShape, seed: &Seed, number: u32) -> LaneHome
        ensures home { result ≡ home_of shape.now seed.now number }
        ensures placed { 1 ≤ lanes_of shape.now → (key : List ℕ) →
            is_own result key ≡ ((place_in seed.now (lanes_of shape.now) key).lane == number) }
    {
        LaneHome {
            seed: seed.random(),
            lanes: u64::from(shape.shards) * u64::from(shape.lanes),
            number,
        }
    }

    /// Whether bytes are a key, and its lane is another.
    pub fn is_foreign(&self, key: &[u8]) -> bool
        ensures exact { result ≡ is_foreign self.now key.now }
        ensures key { result ≡ true → IsKey key.now }
    {
        is_key(key) && !self.is_own(key)
    }

    // Whether the lane of bytes is this one.
    fn is_own(&self, key: &[u8]) -> bool
        ensures { result ≡ is_own self.now key.now }
    {
        self.lanes != 0 && hash_by(self.seed, key) % self.lanes == u64::from(self.number)
    }
}

// Whether bytes are a key.
fn is_key(bytes: &[u8]) -> bool
    ensures { result ≡ is_key bytes.now }
{
    !bytes.is_empty() && bytes.len() <= Key::MAX_LEN
}
