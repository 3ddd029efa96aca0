// The zones of a history's writes.
ghost use Rattle.std.specs.Prelude.{◌≡◌, ◌<◌, ◌^◌, All, IfOk, OnOk, length};
ghost use Rattle.certificate_finder.specs.Lists.{GrowsBy, IsToldAt, Lists};
ghost use Rattle.certificate_finder.specs.Steps.{IsFit};
ghost use Rattle.certificate_finder.specs.Writing.{Writing};
ghost use Rattle.certificate_finder.specs.Zones.{AreEarliest, AreDistinct, AreLatest, AreZones, TellsZone};

use crate::ends::{earliest_of, latest_of};
use crate::items::item_at;
use crate::numbered_call::NumberedCall;
use crate::zone::Zone;
use std::alloc::{AllocError, Global};

/// The zones of all writes, by keys and middles.
pub(crate) fn zones_of(
    alloc: Global,
    steps: &[NumberedCall],
    owners: &[u32],
) -> Result<Vec<Zone>, AllocError>
    requires few { length steps.now < 2 ^ 31 }
    requires fit { All IsFit steps.now }
    requires count { length owners.now ≡ length steps.now }
    requires within { All (λ owner. owner < length steps.now) owners.now }
    ensures { IfOk result (λ zones. AreZones steps.now owners.now zones.items) }
{
    let earliest = earliest_of(alloc, steps, owners)?;
    let latest = latest_of(alloc, steps, owners)?;
    match sorted_zones(alloc, steps, owners, earliest.as_slice(), latest.as_slice()) {
        Ok(zones) => Ok(zones),
        Err(refused) => Err(refused),
    }
}

/// The zones of all writes by the calls that end first and start last, by keys and middles.
pub(crate) fn sorted_zones(
    alloc: Global,
    steps: &[NumberedCall],
    owners: &[u32],
    earliest: &[u32],
    latest: &[u32],
) -> Result<Vec<Zone>, AllocError>
    requires few { length steps.now < 2 ^ 31 }
    requires fit { All IsFit steps.now }
    requires earliest { AreEarliest steps.now owners.now earliest.now }
    requires latest { AreLatest steps.now owners.now latest.now }
    ensures { IfOk result (λ zones. AreZones steps.now owners.now zones.items) }
{
    let mut zones = listed_zones(alloc, steps, owners, earliest, latest)?;
    zones.sort_unstable_by_key(|zone| zone.rank());
    Ok(zones)
}

/// The zones of all writes, in the order of the history.
fn listed_zones(
    alloc: Global,
    steps: &[NumberedCall],
    owners: &[u32],
    earliest: &[u32],
    latest: &[u32],
) -> Result<Vec<Zone>, AllocError>
    requires few { length steps.now < 2 ^ 31 }
    requires earliest { AreEarliest steps.now owners.now earliest.now }
    requires latest { AreLatest steps.now owners.now latest.now }
    ensures lists { IfOk result (λ zones.
        Lists steps.now Writing (TellsZone steps.now owners.now) (length steps.now) zones.items) }
    ensures apart { IfOk result (λ zones.
        AreDistinct zones.items) }
{
    let mut zones = Vec::new(alloc);
    for position in 0..steps.len() {
        let zone = zone_of(steps, owners, earliest, latest, position);
        let step = item_at(steps, position);
        list_zone(&mut zones, &step, zone)?;
    }
    Ok(zones)
}

/// Lists a call's zone, if it is a write.
fn list_zone(zones: &mut Vec<Zone>, step: &NumberedCall, zone: Zone) -> Result<(), AllocError>
    ensures { OnOk result (GrowsBy Writing (λ _ _ z. z ≡ zone) 0 step.now zones.old.items zones.new.items) }
{
    if !step.kind.is_write() {
        return Ok(());
    }
    zones.push(zone)?;
    Ok(())
}

/// The zone of the call at a position.
fn zone_of(
    steps: &[NumberedCall],
    owners: &[u32],
    earliest: &[u32],
    latest: &[u32],
    position: usize,
) -> Zone
    requires few { length steps.now < 2 ^ 31 }
    requires within { position < length steps.now }
    requires earliest { AreEarliest steps.now owners.now earliest.now }
    requires latest { AreLatest steps.now owners.now latest.now }
    ensures { IsToldAt steps.now position (TellsZone steps.now owners.now) result }
{
    let step = item_at(steps, position);
    let early = item_at(earliest, position);
    let late = item_at(latest, position);
    let first = item_at(steps, early as usize);
    let last = item_at(steps, late as usize);
    Zone {
        write: position as u32,
        key: step.key,
        early,
        late,
        end: first.end,
        start: last.start,
    }
}
