// Which puts the hits of a history can have read.
ghost use Rattle.std.specs.Prelude.{◌≡◌, ◌*◌, ◌^◌, ◌<◌, ◌≤◌, All, IfOk, length};
ghost use Rattle.certificate_finder.specs.Asking.{AreAsked, AreReadings};
ghost use Rattle.certificate_finder.specs.Bests.{AreAmong};
ghost use Rattle.certificate_finder.specs.Leaves.{AreLeaved};
ghost use Rattle.certificate_finder.specs.Putting.{AreInOrder, GivesAt, put_rank, value_rank as rank_of_value};
ghost use Rattle.certificate_finder.specs.Readings.{Says};
ghost use Rattle.certificate_finder.specs.Steps.{IsFit};
ghost use Rattle.certificate_finder.specs.Trees.{IsShape, IsTree};
ghost use Rattle.certificate_finder.specs.Writing.{IsSplit};

use crate::asked::asked_of;
use crate::best::Best;
use crate::items::item_at;
use crate::leaved_puts::LeavedPuts;
use crate::leaves::{ends_below, ends_of, leaves_of};
use crate::numbered_call::NumberedCall;
use crate::put::{Put, value_rank};
use crate::puts::puts_upto;
use crate::ranked::Ranked;
use crate::readable::Readable;
use crate::tree::{add_all, live_from};
use crate::tree_shape::TreeShape;
use std::alloc::{AllocError, Global};

/// For each hit which puts it can have read.
///
/// The puts enter a tree by their starts, each at a leaf by when it can last be read. A hit asks when all have entered that it
/// does not precede, and of the leaves from its own start on.
pub(crate) fn readings_of(
    alloc: Global,
    steps: &[NumberedCall],
    puts: &[Put],
) -> Result<Vec<Readable>, AllocError>
    requires few { length steps.now < 2 ^ 31 }
    requires few_puts { length puts.now < 2 ^ 31 }
    requires fit { All IsFit steps.now }
    requires puts { AreInOrder puts.now }
    ensures { IfOk result (λ readings. AreReadings steps.now puts.now readings.items) }
{
    let ends = ends_of(alloc, puts)?;
    let leaves = leaves_of(alloc, puts, ends.as_slice())?;
    let asked = asked_of(alloc, steps)?;
    let leaved = LeavedPuts {
        puts,
        ends: ends.as_slice(),
        leaves: leaves.as_slice(),
    };
    match readings_by(alloc, steps, leaved, asked.as_slice()) {
        Ok(readings) => Ok(readings),
        Err(refused) => Err(refused),
    }
}

/// For each hit which puts it can have read, by the leaves of the puts and by the hits in the order of their ends.
fn readings_by(
    alloc: Global,
    steps: &[NumberedCall],
    leaved: LeavedPuts<'_>,
    asked: &[Ranked],
) -> Result<Vec<Readable>, AllocError>
    requires fit { All IsFit steps.now }
    requires leaved { AreLeaved leaved.puts.now leaved.ends.now leaved.leaves.now }
    requires asked { AreAsked steps.now asked.now }
    ensures { IfOk result (λ readings. AreReadings steps.now leaved.entry.puts.now readings.items) }
{
    let shape = TreeShape::over(leaved.puts.len());
    let mut tree = vec![in alloc; Best::Empty; 2 * shape.width]?;
    let nodes = tree.as_mut_slice();
    let mut readings = vec![in alloc; Readable::Nothing; steps.len()]?;
    let mut taken = 0;
    for index in 0..asked.len() {
        let hit = item_at(asked, index);
        let step = item_at(steps, hit.position as usize);
        let upto = puts_upto(leaved.puts, hit.rank);
        let reading = reading_of(nodes, shape, leaved, taken, upto, &step);
        readings[hit.position as usize] = reading;
        taken = upto;
    }
    Ok(readings)
}

/// Which puts a hit can have read, if the puts below an index are those that it does not precede. They enter the tree,
/// in which those below another index are.
fn reading_of(
    nodes: &mut [Best],
    shape: TreeShape,
    leaved: LeavedPuts<'_>,
    taken: usize,
    upto: usize,
    hit: &NumberedCall,
) -> Readable
    requires fit { IsFit hit.now }
    requires leaved { AreLeaved leaved.puts.now leaved.ends.now leaved.leaves.now }
    requires shape { IsShape (length leaved.puts.now) shape }
    requires count { length nodes.old ≡ 2 * shape.width }
    requires order { taken ≤ upto }
    requires begun { IsSplit put_rank leaved.puts.now (rank_of_value hit.now.key hit.now.value hit.now.end) upto }
    requires among { All (AreAmong leaved.puts.now) nodes.old }
    requires tree { IsTree leaved.puts.now leaved.leaves.now shape taken nodes.old }
    ensures among { All (AreAmong leaved.entry.puts.now) nodes.new }
    ensures tree { IsTree leaved.entry.puts.now leaved.entry.leaves.now shape upto nodes.new }
    ensures reading { Says (GivesAt leaved.entry.puts.now hit.now) result }
{
    add_all(nodes, shape, leaved.puts, leaved.leaves, taken, upto);
    let leaf = ends_below(leaved.ends, value_rank(hit.key, hit.value, hit.start));
    live_from(nodes, shape, leaved.puts, leaf, hit.time)
}
