// Numbers by which calls are sorted, and look-ups among numbers in order.
ghost use Rattle.std.specs.Prelude.{◌≡◌, ◌<◌, Some, length, slice_get};
ghost use Rattle.std.specs.List.Sorted.{IsNonDecreasingBy};
ghost use Rattle.certificate_finder.specs.Leaves.{itself};
ghost use Rattle.certificate_finder.specs.Writing.{IsSplit, IsSplitBelow};
ghost use Rattle.history_window.specs.Ranks.{AreSorted, IsFrom, IsGreatest, IsLeast, IsStampFrom, IsStampOf, IsStampUpto, IsUpto, rank_of, turn_of};

/// The rank of a stamp among those of all keys, or of all values.
pub(crate) fn rank(word: u64, stamp: u64) -> u128
    ensures { result ≡ rank_of word stamp }
{
    word as u128 * 18446744073709551616 + stamp as u128
}

/// The turn of a place at a stamp among those of all keys.
pub(crate) fn turn(key: u32, stamp: u64, place: u32) -> u128
    ensures { result ≡ turn_of key stamp place }
{
    (key as u128 * 18446744073709551616 + stamp as u128) * 4294967296 + place as u128
}

/// The same numbers in order.
pub(crate) fn sort_ranks(made: Vec<u128>) -> Vec<u128>
    ensures { AreSorted made.items result.items }
{
    let mut ranks = made;
    ranks.sort_unstable_by_key(|rank| *rank);
    ranks
}

/// The number at an index.
pub(crate) fn rank_at(ranks: &[u128], index: usize) -> u128
    requires { index < length ranks.now }
    ensures { slice_get ranks.now index ≡ Some result }
{
    ranks[index]
}

/// How many numbers are at most a limit.
fn count_upto(ranks: &[u128], limit: u128) -> usize
    requires { IsNonDecreasingBy itself ranks.now }
    ensures { IsSplit itself ranks.now limit result }
{
    ranks.partition_point(|rank| *rank <= limit)
}

/// How many numbers are below a limit.
fn count_below(ranks: &[u128], limit: u128) -> usize
    requires { IsNonDecreasingBy itself ranks.now }
    ensures { IsSplitBelow itself ranks.now limit result }
{
    ranks.partition_point(|rank| *rank < limit)
}

/// The greatest number that is at most a limit.
pub(crate) fn greatest_upto(ranks: &[u128], limit: u128) -> Option<u128>
    requires { IsNonDecreasingBy itself ranks.now }
    ensures { IsGreatest (IsUpto ranks.now limit) result }
{
    let count = count_upto(ranks, limit);
    if count == 0 {
        return None;
    }
    Some(rank_at(ranks, count - 1))
}

/// The least number that is at least a limit.
fn least_from(ranks: &[u128], limit: u128) -> Option<u128>
    requires { IsNonDecreasingBy itself ranks.now }
    ensures { IsLeast (IsFrom ranks.now limit) result }
{
    let count = count_below(ranks, limit);
    if count == ranks.len() {
        return None;
    }
    Some(rank_at(ranks, count))
}

/// The stamp of a word that has a rank.
pub(crate) fn stamp_of(word: u64, rank: u128) -> Option<u64>
    ensures { IsStampOf word rank result }
{
    if rank / 18446744073709551616 != word as u128 {
        return None;
    }
    Some((rank % 18446744073709551616) as u64)
}

/// Of the stamps of a word whose ranks are listed the last one that is at most a limit.
pub(crate) fn last_upto(ranks: &[u128], word: u64, limit: u64) -> Option<u64>
    requires { IsNonDecreasingBy itself ranks.now }
    ensures { IsGreatest (IsStampUpto ranks.now word limit) result }
{
    let most = rank(word, limit);
    let Some(found) = greatest_upto(ranks, most) else {
        return None;
    };
    match stamp_of(word, found) {
        Some(stamp) => Some(stamp),
        None => None,
    }
}

/// Of the stamps of a word whose ranks are listed the first one that is at least a limit.
pub(crate) fn first_from(ranks: &[u128], word: u64, limit: u64) -> Option<u64>
    requires { IsNonDecreasingBy itself ranks.now }
    ensures { IsLeast (IsStampFrom ranks.now word limit) result }
{
    let least = rank(word, limit);
    let Some(found) = least_from(ranks, least) else {
        return None;
    };
    match stamp_of(word, found) {
        Some(stamp) => Some(stamp),
        None => None,
    }
}
