// How many lanes a cache has, and their shards.
ghost use Rattle.std.specs.Prelude.{◌≡◌, ◌*◌, ◌≤◌, ◌^◌, max};
ghost use Rattle.cache_sizes.specs.Lanes.{lanes_for_sets, lanes_wanted, shards_of, shard_lanes_of};

use crate::limits::{MAX_ALL_LANES, MAX_ODD_SETS, MAX_SHARDS, MAX_THREADS};
use crate::proportions::{LANES_FOR_THREAD, LEAST_LANE_PAGES, SETS_PERCENT};
use record_pages::MAX_LANES;

// The lanes that the sets on this many pages need.
#[tactic(auto, unfolding(crate::specs::Lanes::lanes_for_sets))]
pub(crate) fn lanes_for_sets(pages: u64) -> u64
    requires { pages ≤ 2 ^ 52 }
    ensures { result ≡ lanes_for_sets pages }
{
    (SETS_PERCENT * pages).div_ceil(100 * u64::from(MAX_ODD_SETS))
}

// The lanes that are wanted for this many pages and threads.
#[tactic(auto, unfolding(crate::specs::Lanes::lanes_wanted))]
pub(crate) fn lanes_wanted(pages: u64, threads: u32) -> u32
    requires pages { pages ≤ 2 ^ 52 }
    requires sets { lanes_for_sets pages ≤ MAX_ALL_LANES }
    requires least { 1 ≤ threads }
    requires most { threads ≤ MAX_THREADS }
    ensures wanted { result ≡ lanes_wanted pages threads }
    ensures least { 1 ≤ result }
    ensures most { result ≤ MAX_ALL_LANES }
    ensures wide { result * LEAST_LANE_PAGES ≤ max LEAST_LANE_PAGES pages }
{
    let for_threads = (LANES_FOR_THREAD * threads).min(MAX_ALL_LANES);
    let wide = u64::from(for_threads).min((pages / LEAST_LANE_PAGES).max(1));
    lanes_for_sets(pages).max(wide) as u32
}

// The shards of this many lanes.
#[tactic(auto, unfolding(crate::specs::Lanes::shards_of))]
pub(crate) fn shards_of(lanes: u32) -> u32
    requires least { 1 ≤ lanes }
    requires most { lanes ≤ MAX_ALL_LANES }
    ensures shards { result ≡ shards_of lanes }
    ensures least { 1 ≤ result }
    ensures most { result ≤ MAX_SHARDS }
{
    lanes.div_ceil(MAX_LANES)
}

// The lanes of a shard, if there are this many in all.
#[tactic(auto, unfolding(crate::specs::Lanes::shard_lanes_of))]
pub(crate) fn shard_lanes_of(lanes: u32) -> u32
    requires { 1 ≤ lanes }
    ensures lanes { result ≡ shard_lanes_of lanes }
    ensures least { 1 ≤ result }
    ensures most { result ≤ MAX_LANES }
{
    lanes.min(MAX_LANES)
}
