// A tree over leaves, each node of which has the two puts under it that expire last.
ghost use Rattle.std.specs.Prelude.{◌≡◌, ◌+◌, ◌*◌, ◌%◌, ◌<◌, ◌≤◌, ℕ, ◌^◌, All, List, Some, length, slice_get};
ghost use Rattle.certificate_finder.specs.Bests.{AreAmong};
ghost use Rattle.certificate_finder.specs.Putting.{IsFitPut};
ghost use Rattle.certificate_finder.specs.Readings.{Says};
ghost use Rattle.certificate_finder.specs.Trees.{AreLeaves, IsBeside, IsFrom, IsShape, IsTree};

use crate::best::Best;
use crate::items::item_at;
use crate::put::Put;
use crate::readable::Readable;
use crate::tree_shape::TreeShape;

/// Adds a put to all nodes over its leaf.
fn add(nodes: &mut [Best], shape: TreeShape, puts: &[Put], leaves: &[u32], index: usize)
    requires few { length puts.now < 2 ^ 31 }
    requires shape { IsShape (length puts.now) shape }
    requires count { length nodes.old ≡ 2 * shape.width }
    requires leaves { AreLeaves (length puts.now) shape.width leaves.now }
    requires within { index < length puts.now }
    requires among { All (AreAmong puts.now) nodes.old }
    requires tree { IsTree puts.now leaves.now shape index nodes.old }
    ensures among { All (AreAmong puts.now) nodes.new }
    ensures tree { IsTree puts.now leaves.now shape (index + 1) nodes.new }
{
    let leaf = item_at(leaves, index) as usize;
    let mut at = shape.width + leaf;
    for _level in 0..shape.depth + 1 {
        let node = item_at(nodes, at);
        let with = node.with(puts, index as u32);
        nodes[at] = with;
        at /= 2;
    }
}

/// Adds the puts from one index on up to another.
pub(crate) fn add_all(
    nodes: &mut [Best],
    shape: TreeShape,
    puts: &[Put],
    leaves: &[u32],
    from: usize,
    upto: usize,
)
    requires few { length puts.now < 2 ^ 31 }
    requires shape { IsShape (length puts.now) shape }
    requires count { length nodes.old ≡ 2 * shape.width }
    requires leaves { AreLeaves (length puts.now) shape.width leaves.now }
    requires order { from ≤ upto }
    requires within { upto ≤ length puts.now }
    requires among { All (AreAmong puts.now) nodes.old }
    requires tree { IsTree puts.now leaves.now shape from nodes.old }
    ensures among { All (AreAmong puts.now) nodes.new }
    ensures tree { IsTree puts.now leaves.now shape upto nodes.new }
{
    for index in from..upto {
        add(nodes, shape, puts, leaves, index);
    }
}

/// Which puts of the node right of a left one are live at a moment; none if it is a right one itself.
fn live_beside(nodes: &[Best], puts: &[Put], at: usize, moment: u64) -> Readable
    requires even { length nodes.now % 2 ≡ 0 }
    requires within { at < length nodes.now }
    requires among { All (AreAmong puts.now) nodes.now }
    ensures { IsBeside puts.now nodes.now at moment result }
{
    if at % 2 == 1 {
        return Readable::Nothing;
    }
    let beside = item_at(nodes, at + 1);
    beside.reading(puts, moment)
}

/// Which puts of the leaves from one on are live at a moment.
pub(crate) fn live_from(
    nodes: &[Best],
    shape: TreeShape,
    puts: &[Put],
    leaf: usize,
    moment: u64,
) -> Readable
    requires few { length puts.now < 2 ^ 31 }
    requires shape { IsShape (length puts.now) shape }
    requires count { length nodes.now ≡ 2 * shape.width }
    requires within { leaf < shape.width }
    requires fit { All IsFitPut puts.now }
    requires among { All (AreAmong puts.now) nodes.now }
    ensures { (leaves : List ℕ) (taken : ℕ) → AreLeaves (length puts.now) shape.width leaves
        → taken ≤ length puts.now → IsTree puts.now leaves shape taken nodes.now
        → Says (IsFrom puts.now leaves taken leaf moment) result }
{
    let mut at = shape.width + leaf;
    let own = item_at(nodes, at);
    let mut found = own.reading(puts, moment);
    for _level in 0..shape.depth {
        let beside = live_beside(nodes, puts, at, moment);
        found = found.join(beside);
        at /= 2;
    }
    found
}
