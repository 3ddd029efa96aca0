// Finding the write with which each call goes.
ghost use Rattle.std.specs.Prelude.{◌≡◌, ◌<◌, ◌^◌, All, IfOk, length, slice_get, Some};
ghost use Rattle.certificate_finder.specs.Asking.{AreReadings};
ghost use Rattle.certificate_finder.specs.Owning.{AreKnownOwners, IsOwnerAt};
ghost use Rattle.certificate_finder.specs.Putting.{ArePuts};
ghost use Rattle.certificate_finder.specs.Steps.{IsFit};

use crate::items::item_at;
use crate::numbered_call::NumberedCall;
use crate::owner::Owner;
use crate::owning::Owners;
use crate::put::Put;
use crate::readable::Readable;
use std::alloc::{AllocError, Global};

/// The owners of all calls.
pub(crate) fn owners_of(
    alloc: Global,
    steps: &[NumberedCall],
    puts: &[Put],
    readings: &[Readable],
) -> Result<Owners, AllocError>
    requires few { length steps.now < 2 ^ 31 }
    requires fit { All IsFit steps.now }
    requires puts { ArePuts steps.now puts.now }
    requires readings { AreReadings steps.now puts.now readings.now }
    ensures { IfOk result (AreKnownOwners steps.now (length steps.now)) }
{
    let mut owners = Owners::new(alloc);
    for position in 0..steps.len() {
        let owner = owner_at(steps, puts, readings, position);
        owners.note(position as u32, owner)?;
    }
    Ok(owners)
}

/// With which write the call at a position goes.
fn owner_at(steps: &[NumberedCall], puts: &[Put], readings: &[Readable], position: usize) -> Owner
    requires fit { All IsFit steps.now }
    requires puts { ArePuts steps.now puts.now }
    requires readings { AreReadings steps.now puts.now readings.now }
    requires within { position < length steps.now }
    ensures { IsOwnerAt steps.now position result }
{
    let step = item_at(steps, position);
    if !step.kind.is_hit() {
        return Owner::Itself;
    }
    match item_at(readings, position) {
        Readable::Nothing => Owner::Nothing,
        Readable::One(index) => {
            let put = item_at(puts, index as usize);
            Owner::Put(put.position)
        }
        Readable::Several => Owner::Unsure,
    }
}
