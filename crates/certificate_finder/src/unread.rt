// Hits that can have read no put, although several fit.
ghost use Rattle.std.specs.Prelude.{◌<◌, ◌^◌, All, AllPairs, IfOk, MatchOption, length};
ghost use Rattle.certificate_finder.specs.Owning.{AreSingle, IsUnsure};
ghost use Rattle.certificate_finder.specs.Putting.{ArePuts};
ghost use Rattle.certificate_finder.specs.Steps.{IsFit};
ghost use Rattle.certificate_finder.specs.Unreading.{AreUnreadOf, HasOpen, IsFirstUnreadOf};

use crate::by_ends::by_ends_of;
use crate::groups::Groups;
use crate::if_read::{first_unread, unread_among};
use crate::in_turn::hits_in_turn;
use crate::linked_puts::LinkedPuts;
use crate::links::links_of;
use crate::numbered_call::NumberedCall;
use crate::put::Put;
use crate::stamp::Stamp;
use crate::unread_hit::UnreadHit;
use std::alloc::{AllocError, Global};

/// Of hits that can have read several puts those that would cross two writes whichever of them they read, by their ends, each with the
/// first so many of the puts that it can have read.
///
/// `owners` has the sure owners. The time is `n log n` for `n` calls, and for each hit a step for each put that overlaps those that it
/// can have read.
pub(crate) fn unread_hits_of(
    alloc: Global,
    steps: &[NumberedCall],
    puts: &[Put],
    owners: &[u32],
    unsure: &[u32],
    most: usize,
) -> Result<Vec<UnreadHit>, AllocError>
    requires few { length steps.now < 2 ^ 31 }
    requires fit { All IsFit steps.now }
    requires puts { ArePuts steps.now puts.now }
    requires owners { AreSingle steps.now owners.now }
    requires unsure { All (IsUnsure steps.now) unsure.now }
    requires rise { AllPairs (λ earlier later. earlier < later) unsure.now }
    ensures { IfOk result (λ found. AreUnreadOf steps.now owners.now most unsure.now found.items) }
{
    let links = links_of(alloc, puts)?;
    let groups = Groups::of(alloc, steps, owners)?;
    let by_ends = by_ends_of(alloc, steps, owners)?;
    let hits = hits_in_turn(alloc, steps, unsure, Stamp::End)?;
    let ranked = hits.as_slice();
    let linked = LinkedPuts {
        puts,
        links: links.as_slice(),
    };
    match unread_among(alloc, steps, linked, &groups, &by_ends, ranked, most) {
        Ok(found) => Ok(found),
        Err(refused) => Err(refused),
    }
}

/// The one of them that ends first, of those that end at one stamp the first of the history, with all puts that it can have read.
pub(crate) fn first_unread_of(
    alloc: Global,
    steps: &[NumberedCall],
    puts: &[Put],
    owners: &[u32],
    unsure: &[u32],
) -> Result<Option<UnreadHit>, AllocError>
    requires few { length steps.now < 2 ^ 31 }
    requires fit { All IsFit steps.now }
    requires puts { ArePuts steps.now puts.now }
    requires owners { AreSingle steps.now owners.now }
    requires unsure { All (IsUnsure steps.now) unsure.now }
    requires rise { AllPairs (λ earlier later. earlier < later) unsure.now }
    ensures { IfOk result (λ found. MatchOption found
        (All (HasOpen steps.now owners.now) unsure.now)
        (IsFirstUnreadOf steps.now owners.now unsure.now)) }
{
    let links = links_of(alloc, puts)?;
    let groups = Groups::of(alloc, steps, owners)?;
    let by_ends = by_ends_of(alloc, steps, owners)?;
    let hits = hits_in_turn(alloc, steps, unsure, Stamp::End)?;
    let ranked = hits.as_slice();
    let linked = LinkedPuts {
        puts,
        links: links.as_slice(),
    };
    match first_unread(alloc, steps, linked, &groups, &by_ends, ranked) {
        Ok(found) => Ok(found),
        Err(refused) => Err(refused),
    }
}
