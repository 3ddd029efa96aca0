// The calls of a key that are nearest in time to a call.
ghost use Rattle.std.specs.Prelude.{◌≡◌, ◌==◌, ◌^◌, ◌↔◌, Contains, IfOk, IsTrue, OnOk, slice_get};
ghost use Rattle.std.specs.List.{list_any};
ghost use Rattle.trace_file.specs.Lent.{call_shown};
ghost use Rattle.history_picture.specs.Nearest.{AreNearest, AreOthers, IsOther, IsTakenOther, gap_from};

use crate::call_at::call_at;
use std::alloc::{AllocError, Global};
use trace_file::{CallRef, History};

/// How many positions there can be.
const MOST_POSITIONS: usize = 4294967296;

/// The positions of the calls of a call's key that are nearest to it in time, at most this many, and none of these.
pub(crate) fn nearest(
    alloc: Global,
    history: &History,
    call: &CallRef<'_>,
    without: &[u32],
    most: usize,
) -> Result<Vec<u32>, AllocError>
    ensures { IfOk result (λ near.
        AreNearest history.now (call_shown call.now) without.now most near.items) }
{
    let mut near = others(alloc, history, call.key, without)?;
    near.sort_unstable_by_key(|position| gap_between(history, call, *position));
    near.truncate(most);
    Ok(near)
}

/// The positions of the calls of a key, without these.
fn others(
    alloc: Global,
    history: &History,
    key: &[u8],
    without: &[u32],
) -> Result<Vec<u32>, AllocError>
    ensures { IfOk result (λ others.
        AreOthers history.now key.now without.now (2 ^ 32) others.items) }
{
    let mut others: Vec<u32> = Vec::new(alloc);
    for position in 0..history.len().min(MOST_POSITIONS) {
        take_other(history, key, without, &mut others, position as u32)?;
    }
    Ok(others)
}

/// Appends a position, if its call is of a key and it is none of these.
fn take_other(
    history: &History,
    key: &[u8],
    without: &[u32],
    others: &mut Vec<u32>,
    position: u32,
) -> Result<(), AllocError>
    ensures { OnOk result (IsTakenOther history.now key.now without.now position
        others.old.items others.new.items) }
{
    let is = is_other(history, key, without, position);
    if !is {
        return Ok(());
    }
    others.push(position)?;
    Ok(())
}

/// Whether the call at a position is of a key, and is none of these.
fn is_other(history: &History, key: &[u8], without: &[u32], position: u32) -> bool
    ensures { IsTrue result ↔ IsOther history.now key.now without.now position }
{
    let Some(call) = call_at(history, position) else {
        return false;
    };
    call.key == key && !is_among(without, position)
}

/// Whether a position is among others.
pub(crate) fn is_among(positions: &[u32], position: u32) -> bool
    ensures test { result ≡ list_any (λ one. one == position) positions.now }
    ensures among { IsTrue result ↔ Contains positions.now position }
{
    positions.iter().any(|one| *one == position)
}

/// How many stamps lie between a call and the one at a position, 0 if they overlap.
fn gap_between(history: &History, call: &CallRef<'_>, position: u32) -> u64
    ensures { result ≡ gap_from (call_shown call.now) (slice_get history.now position) }
{
    let Some(other) = call_at(history, position) else {
        return 0;
    };
    let before = call.start.saturating_sub(other.end);
    let behind = other.start.saturating_sub(call.end);
    before.max(behind)
}
