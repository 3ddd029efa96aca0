// The calls that end first and start last, of those that go with a write.
ghost use Rattle.std.specs.Prelude.{◌≡◌, ◌<◌, ◌^◌, All, IfOk, length};
ghost use Rattle.certificate_finder.specs.Zones.{AreEarliest, AreLatest, ArePositions};

use crate::items::item_at;
use crate::numbered_call::NumberedCall;
use std::alloc::{AllocError, Global};

/// The positions up to a count.
fn positions(alloc: Global, count: usize) -> Result<Vec<u32>, AllocError>
    requires { count < 2 ^ 31 }
    ensures { IfOk result (λ positions. ArePositions count positions.items) }
{
    let mut positions = Vec::new(alloc);
    for position in 0..count {
        positions.push(position as u32)?;
    }
    Ok(positions)
}

/// For each position the call that ends first, of those that go with it.
pub(crate) fn earliest_of(
    alloc: Global,
    steps: &[NumberedCall],
    owners: &[u32],
) -> Result<Vec<u32>, AllocError>
    requires few { length steps.now < 2 ^ 31 }
    requires count { length owners.now ≡ length steps.now }
    requires within { All (λ owner. owner < length steps.now) owners.now }
    ensures { IfOk result (λ earliest. AreEarliest steps.now owners.now earliest.items) }
{
    let mut earliest = positions(alloc, steps.len())?;
    for position in 0..steps.len() {
        let step = item_at(steps, position);
        let owner = item_at(owners, position) as usize;
        let known = item_at(earliest.as_slice(), owner) as usize;
        let best = item_at(steps, known);
        if step.end < best.end {
            earliest[owner] = position as u32;
        }
    }
    Ok(earliest)
}

/// For each position the call that starts last, of those that go with it.
pub(crate) fn latest_of(
    alloc: Global,
    steps: &[NumberedCall],
    owners: &[u32],
) -> Result<Vec<u32>, AllocError>
    requires few { length steps.now < 2 ^ 31 }
    requires count { length owners.now ≡ length steps.now }
    requires within { All (λ owner. owner < length steps.now) owners.now }
    ensures { IfOk result (λ latest. AreLatest steps.now owners.now latest.items) }
{
    let mut latest = positions(alloc, steps.len())?;
    for position in 0..steps.len() {
        let step = item_at(steps, position);
        let owner = item_at(owners, position) as usize;
        let known = item_at(latest.as_slice(), owner) as usize;
        let best = item_at(steps, known);
        if best.start < step.start {
            latest[owner] = position as u32;
        }
    }
    Ok(latest)
}
