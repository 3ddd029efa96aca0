// The hits whose values are taken as there from the start.
ghost use Rattle.std.specs.Prelude.{◌≡◌, ◌<◌, ◌^◌, ◌↔◌, All, IfOk, IsTrue, length, slice_get, Some};
ghost use Rattle.std.specs.List.Sorted.{IsNonDecreasingBy};
ghost use Rattle.certificate_finder.specs.Leaves.{itself};
ghost use Rattle.certificate_finder.specs.Lists.{AreAllBelow};
ghost use Rattle.certificate_finder.specs.Steps.{IsFit};
ghost use Rattle.certificate_finder.specs.WarmSteps.{ArePairs, AreLeast, IsFirstOf, IsTurn, IsWarmStep, IsWriteEnd};

use crate::items::item_at;
use crate::numbered_call::NumberedCall;
use crate::reversed::list_if;
use crate::unput::{first_ends_of, first_turns_of, is_unlisted, put_pairs_of, turn_rank};
use std::alloc::{AllocError, Global};

/// The positions of these hits, in the order of the history.
pub(crate) fn warm_hits_of(alloc: Global, steps: &[NumberedCall]) -> Result<Vec<u32>, AllocError>
    requires few { length steps.now < 2 ^ 31 }
    requires fit { All IsFit steps.now }
    ensures { IfOk result (λ hits.
        AreAllBelow (IsWarmStep steps.now) (length steps.now) hits.items) }
{
    let pairs = put_pairs_of(alloc, steps)?;
    let listed = pairs.as_slice();
    let turns = first_turns_of(alloc, steps, listed)?;
    let ends = first_ends_of(alloc, steps)?;
    match first_hits_of(alloc, steps, listed, turns.as_slice(), ends.as_slice()) {
        Ok(hits) => Ok(hits),
        Err(refused) => Err(refused),
    }
}

/// The same by the pairs of the puts, and for each key the first turn of such a hit and the first end of a write.
fn first_hits_of(
    alloc: Global,
    steps: &[NumberedCall],
    pairs: &[u64],
    turns: &[u128],
    ends: &[u128],
) -> Result<Vec<u32>, AllocError>
    requires few { length steps.now < 2 ^ 31 }
    requires fit { All IsFit steps.now }
    requires pairs { ArePairs steps.now pairs.now }
    requires turns { AreLeast (IsTurn pairs.now) steps.now (length steps.now) turns.now }
    requires ends { AreLeast IsWriteEnd steps.now (length steps.now) ends.now }
    ensures { IfOk result (λ hits.
        AreAllBelow (IsWarmStep steps.now) (length steps.now) hits.items) }
{
    let mut hits = Vec::new(alloc);
    for position in 0..steps.len() {
        let step = item_at(steps, position);
        let is_first = is_first_of(pairs, turns, ends, position as u32, &step);
        list_if(&mut hits, position as u32, is_first)?;
    }
    Ok(hits)
}

/// Whether the call at a position is the first such hit of its key, and no write of its key ended before it started.
fn is_first_of(
    pairs: &[u64],
    turns: &[u128],
    ends: &[u128],
    position: u32,
    step: &NumberedCall,
) -> bool
    requires sorted { IsNonDecreasingBy itself pairs.now }
    requires turns { step.now.key < length turns.now }
    requires ends { step.now.key < length ends.now }
    ensures { IsTrue result ↔ IsFirstOf pairs.now turns.now ends.now position step.now }
{
    if !is_unlisted(pairs, step) {
        return false;
    }
    let key = step.key as usize;
    let turn = turn_rank(position, step);
    turn == item_at(turns, key) && step.start as u128 <= item_at(ends, key)
}
