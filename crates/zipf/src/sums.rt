// Sums of weights.
ghost use Rattle.std.specs.Prelude.{◌≡◌, ◌≤◌, ◌<◌, ◌+◌, ◌*◌, IfOk, length, slice_index};
ghost use Rattle.zipf.specs.Holding.{AreSums, most_ranks, most_sums};
ghost use Rattle.zipf.specs.Weights.{ahead_of, rank_within, weight_of};

use std::alloc::{AllocError, Global};

/// How many ranks there may be.
pub const MOST_RANKS: u32 = 100_000_000;

/// How many sums a table has at the most, of 8 bytes each.
pub const MOST_SUMS: u32 = 1_048_576;

/// The weight of the first rank.
const FIRST: u64 = 4_294_967_296;

/// The weight of a rank.
fn weight(rank: u32) -> u64
    ensures { result ≡ weight_of rank }
{
    FIRST / (u64::from(rank) + 1)
}

/// The weights before the rank so many after this one, by those before this one.
pub(crate) fn added(before: u64, rank: u32, count: u32) -> u64
    requires before { before ≡ ahead_of rank }
    requires few { rank + count ≤ 2 * most_ranks }
    ensures { result ≡ ahead_of (rank + count) }
{
    let mut sum = before;
    for next in rank..rank + count {
        sum += weight(next);
    }
    sum
}

/// The weights before each rank at so many steps, of so many ranks.
pub(crate) fn sums_of(alloc: Global, ranks: u32, step: u32) -> Result<Vec<u64>, AllocError>
    requires some { 1 ≤ ranks }
    requires few { ranks ≤ most_ranks }
    requires steps { 1 ≤ step }
    requires short_steps { step ≤ 96 }
    requires enough { ranks ≤ most_sums * step }
    ensures some { IfOk result (λ sums. 0 < length sums.items) }
    ensures few { IfOk result (λ sums. length sums.items ≤ most_sums) }
    ensures sums { IfOk result (λ sums. AreSums sums.items step) }
{
    let mut sums = Vec::new(alloc);
    let (mut rank, mut sum) = (0, 0);
    while rank < ranks {
        sums.push(sum)?;
        sum = added(sum, rank, step);
        rank += step;
    }
    Ok(sums)
}

/// The place of the last sum that is no more than a point.
pub(crate) fn place_of(sums: &[u64], point: u64) -> usize
    requires some { 0 < length sums.now }
    requires first { slice_index sums.now 0 ≤ point }
    ensures inside { result < length sums.now }
    ensures reached { slice_index sums.now result ≤ point }
    ensures last { result + 1 < length sums.now → point < slice_index sums.now (result + 1) }
{
    let (mut low, mut high) = (0, sums.len());
    while high - low > 1 {
        let middle = low + (high - low) / 2;
        if sums[middle] <= point {
            low = middle;
        } else {
            high = middle;
        }
    }
    low
}

/// The rank in whose weight a point lies, by a rank that is not after it, and the weights before that one.
pub(crate) fn rank_from(point: u64, rank: u32, before: u64, ranks: u32) -> u32
    requires before { before ≡ ahead_of rank }
    requires reached { before ≤ point }
    requires within { point < ahead_of ranks }
    requires few { ranks ≤ most_ranks }
    ensures rank { result ≡ rank_within ranks point }
    ensures within { result < ranks }
{
    let mut rank = rank;
    let mut after = before + weight(rank);
    while after <= point {
        rank += 1;
        after += weight(rank);
    }
    rank
}
