// Lanes of recorded calls, laid out as one history.
ghost use Rattle.std.specs.Prelude.{◌≡◌, ◌≤◌, ◌^◌, All, AllPairs, IfOk, length};
ghost use Rattle.std.specs.List.{flat_map};
ghost use Rattle.certificate_checker.specs.Acceptance.{IsAccepted};
ghost use Rattle.certificate_checker.specs.Lanes.{calls_of, PointsRise, IsLane, AreApart, IsLaidOut};

use crate::dones::Dones;
use crate::merging::certificate_of;
use std::alloc::{AllocError, Global};
use trace_file::{Certificate, History};

/// The history of some lanes, one lane after the other, with the certificate that lists its calls by point, at equal
/// points those of the lesser lane first.
///
/// The certificate spells an order that the checker accepts if each lane is well recorded and no two have a key in
/// common. The time is linear in the calls times the lanes, since the lists are merged as they are; no call is copied
/// but into the history, the bytes of a lane at once, and those of the first lane not at all. `AllocError` comes if
/// memory was refused.
pub fn lay_out(alloc: Global, lanes: Vec<Dones>) -> Result<(History, Certificate), AllocError>
    requires rise { All PointsRise lanes.items }
    requires few { length (flat_map calls_of lanes.items) ≤ 2 ^ 28 }
    ensures laid_out { IfOk result (λ laid. IsLaidOut lanes.items laid.0 laid.1) }
    ensures accepted { IfOk result (λ laid. All IsLane lanes.items → AllPairs AreApart lanes.items
        → IsAccepted laid.0 laid.1) }
{
    let certificate = certificate_of(alloc, lanes.as_slice())?;
    let history = history_of(alloc, lanes)?;
    Ok((history, certificate))
}

/// The calls of the lanes, one lane after the other. A lane is dropped once it is laid out.
fn history_of(alloc: Global, lanes: Vec<Dones>) -> Result<History, AllocError>
    ensures { IfOk result (λ history. history ≡ flat_map calls_of lanes.items) }
{
    let mut history = History::new(alloc);
    for lane in lanes {
        lane.put_behind(&mut history)?;
    }
    Ok(history)
}
