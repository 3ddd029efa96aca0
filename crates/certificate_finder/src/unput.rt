// Hits of values that nobody put.
ghost use Rattle.std.specs.Prelude.{◌≡◌, ◌<◌, ◌^◌, ◌↔◌, IfOk, IsTrue, OnOk, Some, length, slice_get};
ghost use Rattle.std.specs.List.Sorted.{IsNonDecreasingBy};
ghost use Rattle.certificate_finder.specs.Leaves.{itself};
ghost use Rattle.certificate_finder.specs.Lists.{GrowsBy, Lists};
ghost use Rattle.certificate_finder.specs.Putting.{Putting};
ghost use Rattle.certificate_finder.specs.WarmSteps.{ArePairs, AreLeast, IsRankIf, IsTurn, IsUnlisted, IsWriteEnd, TellsPair, turn_at};
ghost use Rattle.certificate_finder.specs.Writing.{Writing};

use crate::items::item_at;
use crate::mixing::keys_in;
use crate::numbered_call::NumberedCall;
use std::alloc::{AllocError, Global};

/// A rank above those of all calls.
const NO_RANK: u128 = 79228162514264337593543950336;

/// The pairs of key and value of the puts, in order.
pub(crate) fn put_pairs_of(alloc: Global, steps: &[NumberedCall]) -> Result<Vec<u64>, AllocError>
    ensures { IfOk result (λ pairs. ArePairs steps.now pairs.items) }
{
    let mut pairs = listed_pairs(alloc, steps)?;
    pairs.sort_unstable_by_key(|pair| *pair);
    Ok(pairs)
}

/// The pairs of the puts, in the order of the history.
fn listed_pairs(alloc: Global, steps: &[NumberedCall]) -> Result<Vec<u64>, AllocError>
    ensures { IfOk result (λ pairs.
        Lists steps.now Putting TellsPair (length steps.now) pairs.items) }
{
    let mut pairs = Vec::new(alloc);
    for position in 0..steps.len() {
        let step = item_at(steps, position);
        list_pair(&mut pairs, &step)?;
    }
    Ok(pairs)
}

/// Lists the pair of a call, if it is a put.
fn list_pair(pairs: &mut Vec<u64>, step: &NumberedCall) -> Result<(), AllocError>
    ensures { OnOk result (GrowsBy Putting TellsPair 0 step.now pairs.old.items pairs.new.items) }
{
    if !step.kind.is_put() {
        return Ok(());
    }
    pairs.push(step.pair())?;
    Ok(())
}

/// Whether a call is a hit whose pair is none of these.
pub(crate) fn is_unlisted(pairs: &[u64], step: &NumberedCall) -> bool
    requires { IsNonDecreasingBy itself pairs.now }
    ensures { IsTrue result ↔ IsUnlisted pairs.now step.now }
{
    step.kind.is_hit() && pairs.binary_search(&step.pair()).is_err()
}

/// The turn of a call at a position: by its start, then by the position.
pub(crate) fn turn_rank(position: u32, step: &NumberedCall) -> u128
    ensures { result ≡ turn_at position step.now }
{
    step.start as u128 * 4294967296 + position as u128
}

/// The turn of a call at a position, if it is a hit whose pair is none of these.
fn turn_of(pairs: &[u64], position: u32, step: &NumberedCall) -> u128
    requires { IsNonDecreasingBy itself pairs.now }
    ensures { IsTurn pairs.now position step.now result }
{
    if is_unlisted(pairs, step) {
        turn_rank(position, step)
    } else {
        NO_RANK
    }
}

/// When a call ended, if it is a write.
fn write_end(step: &NumberedCall) -> u128
    ensures { IsRankIf (Writing step.now) step.now.end result }
{
    if step.kind.is_write() {
        step.end as u128
    } else {
        NO_RANK
    }
}

/// For each number of a key the first turn of its hits whose pairs are none of these.
pub(crate) fn first_turns_of(
    alloc: Global,
    steps: &[NumberedCall],
    pairs: &[u64],
) -> Result<Vec<u128>, AllocError>
    requires few { length steps.now < 2 ^ 31 }
    requires sorted { IsNonDecreasingBy itself pairs.now }
    ensures { IfOk result (λ turns.
        AreLeast (IsTurn pairs.now) steps.now (length steps.now) turns.items) }
{
    let mut turns = vec![in alloc; NO_RANK; keys_in(steps)]?;
    for position in 0..steps.len() {
        let step = item_at(steps, position);
        let key = step.key as usize;
        let turn = turn_of(pairs, position as u32, &step);
        turns[key] = item_at(turns.as_slice(), key).min(turn);
    }
    Ok(turns)
}

/// For each number of a key the first end of its writes.
pub(crate) fn first_ends_of(alloc: Global, steps: &[NumberedCall]) -> Result<Vec<u128>, AllocError>
    ensures { IfOk result (λ ends. AreLeast IsWriteEnd steps.now (length steps.now) ends.items) }
{
    let mut ends = vec![in alloc; NO_RANK; keys_in(steps)]?;
    for position in 0..steps.len() {
        let step = item_at(steps, position);
        let key = step.key as usize;
        let end = write_end(&step);
        ends[key] = item_at(ends.as_slice(), key).min(end);
    }
    Ok(ends)
}
