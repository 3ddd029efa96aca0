// The hits of a history.
ghost use Rattle.std.specs.Prelude.{◌^◌, ◌<◌, IfOk, OnOk, length};
ghost use Rattle.certificate_finder.specs.Asking.{AreAsked, Asking, TellsHit};
ghost use Rattle.certificate_finder.specs.Lists.{GrowsBy, Lists};

use crate::items::item_at;
use crate::numbered_call::NumberedCall;
use crate::put::value_rank;
use crate::ranked::Ranked;
use std::alloc::{AllocError, Global};

/// The hits, by keys, values and ends.
pub(crate) fn asked_of(alloc: Global, steps: &[NumberedCall]) -> Result<Vec<Ranked>, AllocError>
    requires { length steps.now < 2 ^ 31 }
    ensures { IfOk result (λ asked. AreAsked steps.now asked.items) }
{
    let mut asked = listed_hits(alloc, steps)?;
    asked.sort_unstable_by_key(|hit| hit.rank);
    Ok(asked)
}

/// The hits, in the order of the history.
fn listed_hits(alloc: Global, steps: &[NumberedCall]) -> Result<Vec<Ranked>, AllocError>
    requires { length steps.now < 2 ^ 31 }
    ensures { IfOk result (λ hits. Lists steps.now Asking TellsHit (length steps.now) hits.items) }
{
    let mut hits = Vec::new(alloc);
    for position in 0..steps.len() {
        let step = item_at(steps, position);
        list_hit(&mut hits, position as u32, &step)?;
    }
    Ok(hits)
}

/// Lists a call, if it is a hit.
fn list_hit(hits: &mut Vec<Ranked>, position: u32, step: &NumberedCall) -> Result<(), AllocError>
    ensures { OnOk result (GrowsBy Asking TellsHit position step.now hits.old.items hits.new.items) }
{
    if !step.kind.is_hit() {
        return Ok(());
    }
    let rank = value_rank(step.key, step.value, step.end);
    hits.push(Ranked { position, rank })?;
    Ok(())
}
