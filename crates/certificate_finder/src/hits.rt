// What the hits of a history can have read.
ghost use Rattle.std.specs.Prelude.{◌<◌, ◌^◌, All, IfOk, length};
ghost use Rattle.certificate_finder.specs.Hits.{AreHitReads};
ghost use Rattle.certificate_finder.specs.Putting.{ArePuts};
ghost use Rattle.certificate_finder.specs.Steps.{IsFit};

use crate::hit_reads::HitReads;
use crate::in_turn::hits_in_turn;
use crate::numbered_call::NumberedCall;
use crate::owners::owners_of;
use crate::put::Put;
use crate::puts::puts_of;
use crate::readings::readings_of;
use crate::stamp::Stamp;
use crate::writes::{soonest_of, writes_of};
use std::alloc::{AllocError, Global};

/// What the hits can have read.
pub(crate) fn hit_reads_of(alloc: Global, steps: &[NumberedCall]) -> Result<HitReads, AllocError>
    requires few { length steps.now < 2 ^ 31 }
    requires fit { All IsFit steps.now }
    ensures { IfOk result (AreHitReads steps.now) }
{
    let puts = all_puts_of(alloc, steps)?;
    let listed = puts.as_slice();
    let readings = readings_of(alloc, steps, listed)?;
    let owners = owners_of(alloc, steps, listed, readings.as_slice())?;
    let wrong = hits_in_turn(alloc, steps, owners.wrong.as_slice(), Stamp::End)?;
    Ok(HitReads {
        puts,
        owners,
        wrong,
    })
}

/// The puts, with the writes that are over them.
pub(crate) fn all_puts_of(alloc: Global, steps: &[NumberedCall]) -> Result<Vec<Put>, AllocError>
    requires few { length steps.now < 2 ^ 31 }
    requires fit { All IsFit steps.now }
    ensures { IfOk result (λ puts. ArePuts steps.now puts.items) }
{
    let writes = writes_of(alloc, steps)?;
    let soonest = soonest_of(alloc, writes.as_slice())?;
    match puts_of(alloc, steps, writes.as_slice(), soonest.as_slice()) {
        Ok(puts) => Ok(puts),
        Err(refused) => Err(refused),
    }
}
