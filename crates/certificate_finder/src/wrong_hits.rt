// The hits that can have read no put, each with what excludes the first of its puts.
ghost use Rattle.std.specs.Prelude.{◌≡◌, All, IfOk, length};
ghost use Rattle.certificate_finder.specs.Excluding.{AreLasts, AreWrongAt, IsWrongAt};
ghost use Rattle.certificate_finder.specs.Lining.{positions_in};
ghost use Rattle.certificate_finder.specs.Owning.{IsRefused};
ghost use Rattle.certificate_finder.specs.Putting.{ArePuts};
ghost use Rattle.certificate_finder.specs.Steps.{IsFit};

use crate::excuses::{excluded_between, puts_like};
use crate::faults::WrongHit;
use crate::items::item_at;
use crate::lateness::{lasts_of, late_by};
use crate::numbered_call::NumberedCall;
use crate::put::Put;
use crate::ranked::Ranked;
use std::alloc::{AllocError, Global};

/// These hits, each with the first so many of its puts and what excludes them.
pub(crate) fn wrong_hits_of(
    alloc: Global,
    steps: &[NumberedCall],
    puts: &[Put],
    wrong: &[Ranked],
    most: usize,
) -> Result<Vec<WrongHit>, AllocError>
    requires fit { All IsFit steps.now }
    requires puts { ArePuts steps.now puts.now }
    requires refused { All (IsRefused steps.now) (positions_in wrong.now) }
    ensures { IfOk result (λ hits. AreWrongAt steps.now most (positions_in wrong.now) hits.items) }
{
    let lasts = lasts_of(alloc, puts)?;
    let mut hits = Vec::new(alloc);
    for index in 0..wrong.len() {
        let position = item_at(wrong, index).position;
        let hit = wrong_hit_of(alloc, steps, puts, lasts.as_slice(), position, most)?;
        hits.push(hit)?;
    }
    Ok(hits)
}

/// The hit at a position, with the first so many of its puts and what excludes them, and how late it is by all of them.
fn wrong_hit_of(
    alloc: Global,
    steps: &[NumberedCall],
    puts: &[Put],
    lasts: &[u128],
    position: u32,
    most: usize,
) -> Result<WrongHit, AllocError>
    requires fit { All IsFit steps.now }
    requires puts { ArePuts steps.now puts.now }
    requires lasts { AreLasts puts.now (length puts.now) lasts.now }
    requires refused { IsRefused steps.now position }
    ensures hit { IfOk result (λ wrong. wrong.hit ≡ position) }
    ensures wrong { IfOk result (IsWrongAt steps.now most) }
{
    let hit = item_at(steps, position as usize);
    let like = puts_like(puts, &hit);
    let upto = like.upto.min(like.from.saturating_add(most));
    let few = excluded_between(alloc, puts, &hit, like.from, upto)?;
    Ok(WrongHit {
        hit: position,
        puts: few,
        late: late_by(puts, lasts, like, &hit),
    })
}
