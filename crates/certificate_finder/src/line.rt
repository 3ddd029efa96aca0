// The calls of each key one after the other, and the points at which they happen.
ghost use Rattle.std.specs.Prelude.{◌≡◌, ◌<◌, ◌≤◌, ◌^◌, ℕ, List, All, AllPairs, IfOk, length};
ghost use Rattle.trace_file.specs.declared.call.Call.{Call};
ghost use Rattle.certificate_checker.specs.Acceptance.{IsAccepted};
ghost use Rattle.certificate_finder.specs.Lining.{ArePlaces, AreSpots, AreTurned, HavePoints, InLine, IsLine, IsNextPoint, IsPointAt, positions_in, turn_of};
ghost use Rattle.certificate_finder.specs.Owning.{AreOwners};
ghost use Rattle.certificate_finder.specs.Steps.{AreSteps};
ghost use Rattle.certificate_finder.specs.Zones.{AreDistinct, AreZones, FollowOn};

use crate::items::item_at;
use crate::numbered_call::NumberedCall;
use crate::ranked::Ranked;
use crate::zone::Zone;
use std::alloc::{AllocError, Global};
use trace_file::{CallKind, Certificate};

/// The calls of a history by points of time, if each hit goes with a put that it can have read and the zones follow on.
/// Each list is given back once the next one stands.
pub(crate) fn certificate_by_zones(
    alloc: Global,
    steps: &[NumberedCall],
    owners: &[u32],
    zones: Vec<Zone>,
) -> Result<Certificate, AllocError>
    requires few { length steps.now < 2 ^ 31 }
    requires few_zones { length zones.items < 2 ^ 31 }
    requires owners { AreOwners steps.now owners.now }
    requires zones { AreZones steps.now owners.now zones.items }
    requires follow { AllPairs FollowOn zones.items }
    ensures { IfOk result (λ certificate. (history : List Call) → AreSteps history steps.now
        → All (λ call. call.start ≤ call.end) history → IsAccepted history certificate) }
{
    let listed = zones.as_slice();
    let places = places_of(alloc, steps.len(), listed)?;
    let placed = places.as_slice();
    let line = line_of(alloc, steps, owners, placed, listed.len())?;
    drop(places);
    drop(zones);
    let turns = line.as_slice();
    let spots = spots_of(alloc, steps, turns)?;
    drop(line);
    let spotted = spots.as_slice();
    match certificate_of(alloc, spotted) {
        Ok(certificate) => Ok(certificate),
        Err(refused) => Err(refused),
    }
}

/// For each write the index of its zone.
fn places_of(alloc: Global, count: usize, zones: &[Zone]) -> Result<Vec<u32>, AllocError>
    requires few { length zones.now < 2 ^ 31 }
    requires within { All (λ zone. zone.write < count) zones.now }
    requires distinct { AreDistinct zones.now }
    ensures { IfOk result (λ places. ArePlaces count zones.now (length zones.now) places.items) }
{
    let mut places = vec![in alloc; 0u32; count]?;
    for index in 0..zones.len() {
        let zone = item_at(zones, index);
        let write = zone.write as usize;
        places[write] = index as u32;
    }
    Ok(places)
}

/// The rank of a call: by the zone that it goes with, its write first, then its hits by start; misses after.
fn turn_rank(step: &NumberedCall, place: u32, zones: usize) -> u128
    requires { zones < 2 ^ 31 }
    ensures { result ≡ turn_of step.now.kind step.now.start place zones }
{
    match step.kind {
        CallKind::Put => place as u128 * 36893488147419103232,
        CallKind::Remove => place as u128 * 36893488147419103232,
        CallKind::Hit => {
            place as u128 * 36893488147419103232 + 18446744073709551616 + step.start as u128
        }
        CallKind::Miss => zones as u128 * 36893488147419103232 + step.start as u128,
    }
}

/// The calls, zone after zone, with the misses after them.
fn line_of(
    alloc: Global,
    steps: &[NumberedCall],
    owners: &[u32],
    places: &[u32],
    zones: usize,
) -> Result<Vec<Ranked>, AllocError>
    requires few { length steps.now < 2 ^ 31 }
    requires few_zones { zones < 2 ^ 31 }
    requires count { length owners.now ≡ length steps.now }
    requires within { All (λ owner. owner < length steps.now) owners.now }
    requires places { length places.now ≡ length steps.now }
    ensures { IfOk result (λ line. IsLine steps.now owners.now places.now zones line.items) }
{
    let mut line = listed_turns(alloc, steps, owners, places, zones)?;
    line.sort_unstable_by_key(|turn| turn.rank);
    Ok(line)
}

/// The turns of all calls, in the order of the history.
fn listed_turns(
    alloc: Global,
    steps: &[NumberedCall],
    owners: &[u32],
    places: &[u32],
    zones: usize,
) -> Result<Vec<Ranked>, AllocError>
    requires few { length steps.now < 2 ^ 31 }
    requires few_zones { zones < 2 ^ 31 }
    requires count { length owners.now ≡ length steps.now }
    requires within { All (λ owner. owner < length steps.now) owners.now }
    requires places { length places.now ≡ length steps.now }
    ensures { IfOk result (λ line.
        AreTurned steps.now owners.now places.now zones (length steps.now) line.items) }
{
    let mut line = Vec::new(alloc);
    for position in 0..steps.len() {
        let step = item_at(steps, position);
        let owner = item_at(owners, position) as usize;
        let place = item_at(places, owner);
        let rank = turn_rank(&step, place, zones);
        let turn = Ranked {
            position: position as u32,
            rank,
        };
        line.push(turn)?;
    }
    Ok(line)
}

/// The point of a call after another, which has a point: the greatest start so far of its key. A miss has its own
/// start.
fn next_point(step: &NumberedCall, before: &NumberedCall, point: u64) -> u64
    ensures { IsNextPoint step.now before.now point result }
{
    if step.kind.is_miss() {
        return step.start;
    }
    if step.key == before.key {
        step.start.max(point)
    } else {
        step.start
    }
}

/// The point of the call at a place of a line, if the call before it has this point.
fn point_at(steps: &[NumberedCall], line: &[Ranked], place: usize, point: u64) -> u64
    requires within { place < length line.now }
    requires positions { All (λ turn. turn.position < length steps.now) line.now }
    ensures { IsPointAt steps.now line.now place point result }
{
    let turn = item_at(line, place);
    let step = item_at(steps, turn.position as usize);
    if place == 0 {
        return next_point(&step, &step, point);
    }
    let earlier = item_at(line, place - 1);
    let before = item_at(steps, earlier.position as usize);
    next_point(&step, &before, point)
}

/// The calls of a line by their points, and at one point by their places in the line.
fn spots_of(
    alloc: Global,
    steps: &[NumberedCall],
    line: &[Ranked],
) -> Result<Vec<Ranked>, AllocError>
    requires few { length line.now < 2 ^ 31 }
    requires positions { All (λ turn. turn.position < length steps.now) line.now }
    ensures { IfOk result (λ spots. (history : List Call) → AreSteps history steps.now
        → InLine history steps.now (positions_in line.now) → AreSpots history line.now spots.items) }
{
    let mut spots = listed_spots(alloc, steps, line)?;
    spots.sort_unstable_by_key(|spot| spot.rank);
    Ok(spots)
}

/// The calls of a line with their points, in the line's order.
fn listed_spots(
    alloc: Global,
    steps: &[NumberedCall],
    line: &[Ranked],
) -> Result<Vec<Ranked>, AllocError>
    requires few { length line.now < 2 ^ 31 }
    requires positions { All (λ turn. turn.position < length steps.now) line.now }
    ensures { IfOk result (λ spots. (history : List Call) → AreSteps history steps.now
        → InLine history steps.now (positions_in line.now)
        → (point : ℕ) × HavePoints history line.now spots.items (length line.now) point) }
{
    let mut spots = Vec::new(alloc);
    let mut point = 0;
    for place in 0..line.len() {
        let next = point_at(steps, line, place, point);
        let turn = item_at(line, place);
        let spot = Ranked {
            position: turn.position,
            rank: next as u128 * 4294967296 + place as u128,
        };
        spots.push(spot)?;
        point = next;
    }
    Ok(spots)
}

/// The positions of spots, in order.
fn certificate_of(alloc: Global, spots: &[Ranked]) -> Result<Certificate, AllocError>
    ensures { IfOk result (λ certificate. certificate ≡ positions_in spots.now) }
{
    let mut certificate = Certificate::new(alloc);
    for index in 0..spots.len() {
        let spot = item_at(spots, index);
        certificate.push(spot.position)?;
    }
    Ok(certificate)
}
