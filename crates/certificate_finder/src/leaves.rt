// Where puts stand by when they can last be read.
ghost use Rattle.std.specs.Prelude.{◌^◌, ◌<◌, IfOk, length};
ghost use Rattle.std.specs.List.Sorted.{IsNonDecreasingBy};
ghost use Rattle.certificate_finder.specs.Leaves.{AreEnds, AreLeavesOf, IsBelow, itself};

use crate::items::item_at;
use crate::put::Put;
use std::alloc::{AllocError, Global};

/// By keys, values and stamps, when the puts can last be read: the ranks, in order.
pub(crate) fn ends_of(alloc: Global, puts: &[Put]) -> Result<Vec<u128>, AllocError>
    ensures { IfOk result (λ ends. AreEnds puts.now ends.items) }
{
    let mut ends: Vec<u128> = puts.iter().map(|put| put.last()).collect(alloc)?;
    ends.sort_unstable_by_key(|end| *end);
    Ok(ends)
}

/// How many of the ranks are below this one.
pub(crate) fn ends_below(ends: &[u128], rank: u128) -> usize
    requires { IsNonDecreasingBy itself ends.now }
    ensures { IsBelow ends.now rank result }
{
    ends.partition_point(|end| *end < rank)
}

/// For each put the leaf that it has: how many of the ranks are below its own.
pub(crate) fn leaves_of(alloc: Global, puts: &[Put], ends: &[u128]) -> Result<Vec<u32>, AllocError>
    requires few { length ends.now < 2 ^ 31 }
    requires sorted { IsNonDecreasingBy itself ends.now }
    ensures { IfOk result (λ leaves. AreLeavesOf puts.now ends.now (length puts.now) leaves.items) }
{
    let mut leaves = Vec::new(alloc);
    for index in 0..puts.len() {
        let put = item_at(puts, index);
        let leaf = ends_below(ends, put.last());
        leaves.push(leaf as u32)?;
    }
    Ok(leaves)
}
