// The zones of a history by their ends, and which of them start last.
ghost use Rattle.std.specs.Prelude.{◌≡◌, ◌-◌, ◌<◌, ◌^◌, All, IfOk, Some, length, slice_get};
ghost use Rattle.std.specs.List.Sorted.{IsNonDecreasingBy};
ghost use Rattle.certificate_finder.specs.Steps.{IsFit};
ghost use Rattle.certificate_finder.specs.Unreading.{AreByEnds, AreEndZones, AreTops, IsLastOther, IsTop, end_rank};
ghost use Rattle.certificate_finder.specs.Writing.{IsSplitBelow};
ghost use Rattle.certificate_finder.specs.Zones.{AreDistinct, IsFitZone};

use crate::items::item_at;
use crate::numbered_call::NumberedCall;
use crate::write::key_rank;
use crate::zone::Zone;
use crate::zoning::zones_of;
use std::alloc::{AllocError, Global};

/// Two zones of a key, by their indexes.
#[derive(Clone, Copy)]
pub(crate) struct Top {
    /// The zone that starts last.
    pub(crate) first: u32,
    /// Of the others the one that starts last, or the same one if there is no other.
    pub(crate) second: u32,
}

/// The zones of all writes by their ends.
#[derive(Drop)]
pub(crate) struct ByEnds {
    /// The zones, by keys and ends.
    pub(crate) zones: Vec<Zone>,
    /// For each zone two of its key that end no later, and start last.
    pub(crate) tops: Vec<Top>,
}

/// The zones of all writes by their ends, if calls have these owners.
pub(crate) fn by_ends_of(
    alloc: Global,
    steps: &[NumberedCall],
    owners: &[u32],
) -> Result<ByEnds, AllocError>
    requires few { length steps.now < 2 ^ 31 }
    requires fit { All IsFit steps.now }
    requires count { length owners.now ≡ length steps.now }
    requires within { All (λ owner. owner < length steps.now) owners.now }
    ensures { IfOk result (AreByEnds steps.now owners.now) }
{
    let zones = end_zones_of(alloc, steps, owners)?;
    let tops = tops_of(alloc, zones.as_slice())?;
    Ok(ByEnds { zones, tops })
}

/// The zones of all writes, by keys and ends.
fn end_zones_of(
    alloc: Global,
    steps: &[NumberedCall],
    owners: &[u32],
) -> Result<Vec<Zone>, AllocError>
    requires few { length steps.now < 2 ^ 31 }
    requires fit { All IsFit steps.now }
    requires count { length owners.now ≡ length steps.now }
    requires within { All (λ owner. owner < length steps.now) owners.now }
    ensures zones { IfOk result (λ zones. AreEndZones steps.now owners.now zones.items) }
    ensures few { IfOk result (λ zones. length zones.items < 2 ^ 31) }
{
    let mut zones = zones_of(alloc, steps, owners)?;
    zones.sort_unstable_by_key(|zone| zone.rank_by_end());
    Ok(zones)
}

/// For each zone two of its key that end no later, and start last.
fn tops_of(alloc: Global, zones: &[Zone]) -> Result<Vec<Top>, AllocError>
    requires few { length zones.now < 2 ^ 31 }
    requires sorted { IsNonDecreasingBy end_rank zones.now }
    requires fit { All IsFitZone zones.now }
    ensures { IfOk result (λ tops. AreTops zones.now (length zones.now) tops.items) }
{
    let mut tops = Vec::new(alloc);
    if zones.is_empty() {
        return Ok(tops);
    }
    let mut top = Top {
        first: 0,
        second: 0,
    };
    tops.push(top)?;
    for index in 1..zones.len() {
        top = next_top(zones, top, index);
        tops.push(top)?;
    }
    Ok(tops)
}

/// The two zones that start last up to an index, by those up to the one before it.
fn next_top(zones: &[Zone], top: Top, index: usize) -> Top
    requires few { length zones.now < 2 ^ 31 }
    requires sorted { IsNonDecreasingBy end_rank zones.now }
    requires fit { All IsFitZone zones.now }
    requires later { 0 < index }
    requires within { index < length zones.now }
    requires top { IsTop zones.now (index - 1) top }
    ensures { IsTop zones.now index result }
{
    let zone = item_at(zones, index);
    let first = item_at(zones, top.first as usize);
    if zone.key != first.key {
        return Top {
            first: index as u32,
            second: index as u32,
        };
    }
    if first.start < zone.start {
        return Top {
            first: index as u32,
            second: top.first,
        };
    }
    let second = item_at(zones, top.second as usize);
    if top.second == top.first || second.start < zone.start {
        return Top {
            first: top.first,
            second: index as u32,
        };
    }
    top
}

/// How many zones have less than this rank.
fn zones_below(zones: &[Zone], limit: u128) -> usize
    requires { IsNonDecreasingBy end_rank zones.now }
    ensures { IsSplitBelow end_rank zones.now limit result }
{
    zones.partition_point(|zone| zone.rank_by_end() < limit)
}

/// Of the zones of a key that end before a stamp, and are of another write than this one, the one that starts last.
pub(crate) fn last_other(
    zones: &[Zone],
    tops: &[Top],
    key: u32,
    before: u64,
    write: u32,
) -> Option<Zone>
    requires sorted { IsNonDecreasingBy end_rank zones.now }
    requires distinct { AreDistinct zones.now }
    requires fit { All IsFitZone zones.now }
    requires tops { AreTops zones.now (length zones.now) tops.now }
    ensures { IsLastOther zones.now key before write result }
{
    let upto = zones_below(zones, key_rank(key, before));
    if upto == 0 {
        return None;
    }
    let top = item_at(tops, upto - 1);
    let first = item_at(zones, top.first as usize);
    if first.key != key {
        return None;
    }
    if first.write != write {
        return Some(first);
    }
    if top.second == top.first {
        return None;
    }
    let second = item_at(zones, top.second as usize);
    Some(second)
}
