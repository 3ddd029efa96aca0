// Looking for zones that are crossed.
ghost use Rattle.std.specs.Prelude.{◌≡◌, ◌<◌, ◌≤◌, ◌⊎◌, ◌↔◌, All, IfOk, IsTrue, OnOk, length};
ghost use Rattle.std.specs.List.Sorted.{IsNonDecreasingBy};
ghost use Rattle.certificate_finder.specs.Deciding.{AreStill, IsMarked};
ghost use Rattle.certificate_finder.specs.Zones.{AreCrossings, AreDistinct, GrowsByCrossing, IsFitZone, IsLastKey, zone_rank};

use crate::crossing::Crossing;
use crate::items::item_at;
use crate::zone::Zone;
use std::alloc::{AllocError, Global};

/// Of each key that has zones that are crossed two such zones, by the numbers of the keys.
pub(crate) fn crossings_of(alloc: Global, zones: &[Zone]) -> Result<Vec<Crossing>, AllocError>
    requires sorted { IsNonDecreasingBy zone_rank zones.now }
    requires distinct { AreDistinct zones.now }
    requires fit { All IsFitZone zones.now }
    ensures { IfOk result (λ crossings. AreCrossings zones.now crossings.items) }
{
    let mut crossings = Vec::new(alloc);
    if zones.is_empty() {
        return Ok(crossings);
    }
    let mut high = item_at(zones, 0);
    for index in 1..zones.len() {
        let zone = item_at(zones, index);
        list_crossing(&mut crossings, high, zone)?;
        high = higher(high, zone);
    }
    Ok(crossings)
}

/// Lists two zones, one after the other, if they are crossed and the last ones listed are of another key.
fn list_crossing(crossings: &mut Vec<Crossing>, high: Zone, zone: Zone) -> Result<(), AllocError>
    ensures { OnOk result (GrowsByCrossing high zone crossings.old.items crossings.new.items) }
{
    if !are_crossed(high, zone) {
        return Ok(());
    }
    if is_last_key(crossings.as_slice(), zone.key) {
        return Ok(());
    }
    crossings.push(Crossing {
        one: high,
        other: zone,
    })?;
    Ok(())
}

/// Whether the last zones listed are of a key.
fn is_last_key(crossings: &[Crossing], key: u32) -> bool
    ensures { IsTrue result ↔ IsLastKey crossings.now key }
{
    let count = crossings.len();
    if count == 0 {
        return false;
    }
    let last = item_at(crossings, count - 1);
    last.one.key == key
}

/// Which of the stuck keys are still stuck: those with two zones that are crossed.
pub(crate) fn still_stuck(
    alloc: Global,
    zones: &[Zone],
    stuck: &[bool],
) -> Result<Vec<bool>, AllocError>
    requires sorted { IsNonDecreasingBy zone_rank zones.now }
    requires distinct { AreDistinct zones.now }
    requires fit { All IsFitZone zones.now }
    requires keys { All (λ zone. zone.key < length stuck.now) zones.now }
    ensures { IfOk result (λ still. AreStill zones.now stuck.now still.items) }
{
    let mut still = vec![in alloc; false; stuck.len()]?;
    if zones.is_empty() {
        return Ok(still);
    }
    let mut high = item_at(zones, 0);
    for index in 1..zones.len() {
        let zone = item_at(zones, index);
        mark_crossed(&mut still, stuck, high, zone);
        high = higher(high, zone);
    }
    Ok(still)
}

/// Marks the key of two zones, one after the other, if they are crossed and the key was stuck.
fn mark_crossed(still: &mut Vec<bool>, stuck: &[bool], high: Zone, zone: Zone)
    requires within { zone.key < length stuck.now }
    requires count { length still.old.items ≡ length stuck.now }
    ensures { IsMarked stuck.now high zone still.old.items still.new.items }
{
    let key = zone.key as usize;
    if are_crossed(high, zone) && item_at(stuck, key) {
        still[key] = true;
    }
}

/// Whether a later zone is of an earlier one's key, and ends for some call before that one starts for some call.
fn are_crossed(high: Zone, zone: Zone) -> bool
    ensures { IsTrue result ↔ ((zone.key ≡ high.key) × (zone.end < high.start)) }
{
    zone.key == high.key && zone.end < high.start
}

/// Of two zones the later one, if it is of another key or starts later for some call, otherwise the earlier one.
fn higher(high: Zone, zone: Zone) -> Zone
    ensures chosen { (result ≡ zone)
        ⊎ ((result ≡ high) × (zone.key ≡ high.key) × (zone.start ≤ high.start)) }
    ensures above { zone.key ≡ high.key → high.start ≤ result.start }
{
    if zone.key != high.key || high.start < zone.start {
        zone
    } else {
        high
    }
}
