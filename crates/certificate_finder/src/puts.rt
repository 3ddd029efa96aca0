// The puts of a history.
ghost use Rattle.std.specs.Prelude.{◌≢◌, ◌^◌, ◌<◌, All, AllPairs, IfOk, OnOk, length};
ghost use Rattle.std.specs.List.Sorted.{IsNonDecreasingBy};
ghost use Rattle.certificate_finder.specs.Lists.{GrowsBy, Lists};
ghost use Rattle.certificate_finder.specs.Putting.{ArePuts, IsPut, Putting, TellsPut, put_rank};
ghost use Rattle.certificate_finder.specs.Steps.{IsFit};
ghost use Rattle.certificate_finder.specs.Writing.{AreSoonest, AreWrites, IsSplit, IsSplitBelow};

use crate::items::item_at;
use crate::numbered_call::NumberedCall;
use crate::put::Put;
use crate::write::Write;
use crate::writes::over_of;
use std::alloc::{AllocError, Global};

/// The puts, by keys, values and starts.
pub(crate) fn puts_of(
    alloc: Global,
    steps: &[NumberedCall],
    writes: &[Write],
    soonest: &[u32],
) -> Result<Vec<Put>, AllocError>
    requires few { length steps.now < 2 ^ 31 }
    requires fit { All IsFit steps.now }
    requires writes { AreWrites steps.now writes.now }
    requires soonest { AreSoonest writes.now 0 soonest.now }
    ensures { IfOk result (λ puts. ArePuts steps.now puts.items) }
{
    let mut puts = listed_puts(alloc, steps, writes, soonest)?;
    puts.sort_unstable_by_key(|put| put.rank());
    Ok(puts)
}

/// The puts, in the order of the history.
fn listed_puts(
    alloc: Global,
    steps: &[NumberedCall],
    writes: &[Write],
    soonest: &[u32],
) -> Result<Vec<Put>, AllocError>
    requires few { length steps.now < 2 ^ 31 }
    requires writes { AreWrites steps.now writes.now }
    requires soonest { AreSoonest writes.now 0 soonest.now }
    ensures lists { IfOk result (λ puts.
        Lists steps.now Putting (TellsPut steps.now) (length steps.now) puts.items) }
    ensures apart { IfOk result (λ puts.
        AllPairs (λ one other. one.position ≢ other.position) puts.items) }
{
    let mut puts = Vec::new(alloc);
    for position in 0..steps.len() {
        let step = item_at(steps, position);
        let over = over_of(writes, soonest, &step);
        list_put(&mut puts, position as u32, &step, over)?;
    }
    Ok(puts)
}

/// Lists a call, if it is a put, with the write that is over it.
fn list_put(
    puts: &mut Vec<Put>,
    position: u32,
    step: &NumberedCall,
    over: Option<Write>,
) -> Result<(), AllocError>
    ensures { OnOk result (GrowsBy Putting (λ p s put. IsPut p s over put) position step.now puts.old.items puts.new.items) }
{
    if !step.kind.is_put() {
        return Ok(());
    }
    let put = Put::of(position, step, over);
    puts.push(put)?;
    Ok(())
}

/// How many puts have at most this rank.
pub(crate) fn puts_upto(puts: &[Put], limit: u128) -> usize
    requires { IsNonDecreasingBy put_rank puts.now }
    ensures { IsSplit put_rank puts.now limit result }
{
    puts.partition_point(|put| put.rank() <= limit)
}

/// How many puts have less than this rank.
pub(crate) fn puts_below(puts: &[Put], limit: u128) -> usize
    requires { IsNonDecreasingBy put_rank puts.now }
    ensures { IsSplitBelow put_rank puts.now limit result }
{
    puts.partition_point(|put| put.rank() < limit)
}
