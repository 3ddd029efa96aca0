// The crossed writes of a history.
ghost use Rattle.std.specs.Prelude.{◌≡◌, ◌<◌, ◌^◌, All, IfOk, length, map};
ghost use Rattle.certificate_finder.specs.Steps.{IsFit};
ghost use Rattle.certificate_finder.specs.Zones.{AreCrossedIn, writes_of};

use crate::crossing::Crossing;
use crate::crossings::crossings_of;
use crate::faults::CrossedWrites;
use crate::numbered_call::NumberedCall;
use crate::zoning::zones_of;
use std::alloc::{AllocError, Global};

/// Of each key that has crossed writes by these owners two of them.
pub(crate) fn crossed_of(
    alloc: Global,
    steps: &[NumberedCall],
    owners: &[u32],
) -> Result<Vec<CrossedWrites>, AllocError>
    requires few { length steps.now < 2 ^ 31 }
    requires fit { All IsFit steps.now }
    requires count { length owners.now ≡ length steps.now }
    requires within { All (λ owner. owner < length steps.now) owners.now }
    ensures { IfOk result (λ crossed. AreCrossedIn steps.now owners.now crossed.items) }
{
    let zones = zones_of(alloc, steps, owners)?;
    let crossings = crossings_of(alloc, zones.as_slice())?;
    let listed = crossings.as_slice();
    match writes_of_each(alloc, listed) {
        Ok(crossed) => Ok(crossed),
        Err(refused) => Err(refused),
    }
}

/// The writes of each of these.
fn writes_of_each(alloc: Global, crossings: &[Crossing]) -> Result<Vec<CrossedWrites>, AllocError>
    ensures { IfOk result (λ crossed. crossed.items ≡ map writes_of crossings.now) }
{
    let crossed: Vec<CrossedWrites> = crossings.iter().map(|one| one.writes()).collect(alloc)?;
    Ok(crossed)
}
