// In which lane a key is.
ghost use Rattle.std.specs.Prelude.{◌≡◌, ◌≤◌, ◌<◌};
ghost use Rattle.c_lane.specs.Placing.{place_in};

use crate::seed::Seed;
use service_lane::hash_by;

/// Where a key is.
#[repr(C)]
#[derive(Clone, Copy)]
pub struct KeyPlace {
    /// The number of its lane.
    pub lane: u32,
    /// 32 bits of its hash: those of two keys are seldom the same.
    pub word: u32,
}

/// Where a key is, in a cache of this many lanes with this seed: a function of these three.
#[tactic(auto, unfolding(crate::specs::Placing::place_in))]
pub fn place_of(seed: &Seed, lanes: u32, key: &[u8]) -> KeyPlace
    requires { 1 ≤ lanes }
    ensures place { result ≡ place_in seed.now lanes key.now }
    ensures within { result.lane < lanes }
{
    let hash = hash_by(seed.random(), key);
    KeyPlace {
        lane: (hash % u64::from(lanes)) as u32,
        word: (hash >> 32) as u32,
    }
}
