// The writes of a history, and which of them ends first after a call.
ghost use Rattle.std.specs.Prelude.{◌≡◌, ◌+◌, ◌^◌, ◌<◌, ◌≤◌, All, IfOk, OnOk, Some, length, slice_get};
ghost use Rattle.std.specs.List.Sorted.{IsNonDecreasingBy};
ghost use Rattle.certificate_finder.specs.Lists.{GrowsBy, Lists};
ghost use Rattle.certificate_finder.specs.Steps.{IsFit};
ghost use Rattle.certificate_finder.specs.Writing.{AreWrites, AreSoonest, EndsFirst, IsFirstOver, IsSplit, TellsWrite, Writing, write_rank};

use crate::items::item_at;
use crate::numbered_call::NumberedCall;
use crate::write::{Write, key_rank};
use std::alloc::{AllocError, Global};

/// The writes, by keys and starts.
pub(crate) fn writes_of(alloc: Global, steps: &[NumberedCall]) -> Result<Vec<Write>, AllocError>
    requires few { length steps.now < 2 ^ 31 }
    requires fit { All IsFit steps.now }
    ensures { IfOk result (λ writes. AreWrites steps.now writes.items) }
{
    let mut writes = listed_writes(alloc, steps)?;
    writes.sort_unstable_by_key(|write| write.rank());
    Ok(writes)
}

/// The writes, in the order of the history.
fn listed_writes(alloc: Global, steps: &[NumberedCall]) -> Result<Vec<Write>, AllocError>
    requires { length steps.now < 2 ^ 31 }
    ensures { IfOk result (λ writes.
        Lists steps.now Writing TellsWrite (length steps.now) writes.items) }
{
    let mut writes = Vec::new(alloc);
    for position in 0..steps.len() {
        let step = item_at(steps, position);
        list_write(&mut writes, position as u32, &step)?;
    }
    Ok(writes)
}

/// Lists a call, if it is a write.
fn list_write(writes: &mut Vec<Write>, position: u32, step: &NumberedCall) -> Result<(), AllocError>
    ensures { OnOk result (GrowsBy Writing TellsWrite position step.now writes.old.items writes.new.items) }
{
    if !step.kind.is_write() {
        return Ok(());
    }
    let write = Write::of(position, step);
    writes.push(write)?;
    Ok(())
}

/// For each write the index of the one that ends first, of it and the later ones of its key.
pub(crate) fn soonest_of(alloc: Global, writes: &[Write]) -> Result<Vec<u32>, AllocError>
    requires few { length writes.now < 2 ^ 31 }
    requires sorted { IsNonDecreasingBy write_rank writes.now }
    requires fit { All (λ write. write.start < 2 ^ 64) writes.now }
    ensures { IfOk result (λ soonest. AreSoonest writes.now 0 soonest.items) }
{
    let mut soonest = vec![in alloc; 0u32; writes.len()]?;
    for done in 0..writes.len() {
        let index = writes.len() - 1 - done;
        let best = sooner(writes, soonest.as_slice(), index);
        soonest[index] = best;
    }
    Ok(soonest)
}

/// The index of the write that ends first, of that at an index and the later ones of its key.
fn sooner(writes: &[Write], soonest: &[u32], index: usize) -> u32
    requires few { length writes.now < 2 ^ 31 }
    requires sorted { IsNonDecreasingBy write_rank writes.now }
    requires fit { All (λ write. write.start < 2 ^ 64) writes.now }
    requires within { index < length writes.now }
    requires later { AreSoonest writes.now (index + 1) soonest.now }
    ensures { EndsFirst writes.now index result }
{
    if index + 1 == writes.len() {
        return index as u32;
    }
    let write = item_at(writes, index);
    let next = item_at(writes, index + 1);
    if next.key != write.key {
        return index as u32;
    }
    let best = item_at(soonest, index + 1);
    let later = item_at(writes, best as usize);
    if later.end < write.end {
        best
    } else {
        index as u32
    }
}

/// Of the writes of a call's key that start after the call's end, the one that ends first.
pub(crate) fn over_of(writes: &[Write], soonest: &[u32], step: &NumberedCall) -> Option<Write>
    requires sorted { IsNonDecreasingBy write_rank writes.now }
    requires fit { All (λ write. write.start < 2 ^ 64) writes.now }
    requires soonest { AreSoonest writes.now 0 soonest.now }
    ensures { IsFirstOver writes.now step.now.key step.now.end result }
{
    let index = writes_upto(writes, key_rank(step.key, step.end));
    if index == writes.len() {
        return None;
    }
    let write = item_at(writes, index);
    if write.key != step.key {
        return None;
    }
    let best = item_at(soonest, index);
    let first = item_at(writes, best as usize);
    Some(first)
}

/// How many writes have at most this rank.
fn writes_upto(writes: &[Write], limit: u128) -> usize
    requires { IsNonDecreasingBy write_rank writes.now }
    ensures { IsSplit write_rank writes.now limit result }
{
    writes.partition_point(|write| write.rank() <= limit)
}
