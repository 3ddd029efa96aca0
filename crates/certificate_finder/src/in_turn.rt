// Hits in the order of their stamps.
ghost use Rattle.std.specs.Prelude.{◌<◌, All, AllPairs, IfOk, length};
ghost use Rattle.certificate_finder.specs.Offering.{AreByStamps, AreListed};

use crate::items::item_at;
use crate::numbered_call::NumberedCall;
use crate::ranked::Ranked;
use crate::stamp::Stamp;
use std::alloc::{AllocError, Global};

/// The hits at these positions by one of their stamps, those of one stamp by their positions.
pub(crate) fn hits_in_turn(
    alloc: Global,
    steps: &[NumberedCall],
    positions: &[u32],
    stamp: Stamp,
) -> Result<Vec<Ranked>, AllocError>
    requires within { All (λ hit. hit < length steps.now) positions.now }
    requires rise { AllPairs (λ earlier later. earlier < later) positions.now }
    ensures { IfOk result (λ hits. AreByStamps stamp steps.now positions.now hits.items) }
{
    let mut hits = listed_hits(alloc, steps, positions, stamp)?;
    hits.sort_unstable_by_key(|hit| hit.rank);
    Ok(hits)
}

/// These hits with their ranks, in the order of the history.
fn listed_hits(
    alloc: Global,
    steps: &[NumberedCall],
    positions: &[u32],
    stamp: Stamp,
) -> Result<Vec<Ranked>, AllocError>
    requires within { All (λ hit. hit < length steps.now) positions.now }
    ensures { IfOk result (λ hits.
        AreListed stamp steps.now positions.now (length positions.now) hits.items) }
{
    let mut hits = Vec::new(alloc);
    for index in 0..positions.len() {
        let position = item_at(positions, index);
        let step = item_at(steps, position as usize);
        let rank = step.stamp(stamp) as u128 * 4294967296 + position as u128;
        hits.push(Ranked { position, rank })?;
    }
    Ok(hits)
}
