// What would be crossed if a hit read a put.
ghost use Rattle.std.specs.Prelude.{◌≡◌, ◌<◌, ◌^◌, All, AllPairs, IfOk, MatchOption, length, take};
ghost use Rattle.certificate_finder.specs.Choosing.{IsEarlierBy};
ghost use Rattle.certificate_finder.specs.declared.stamp.Stamp.TheVariants.{End};
ghost use Rattle.certificate_finder.specs.Lining.{positions_in};
ghost use Rattle.certificate_finder.specs.Offering.{AreGroups, AreLinks, stamp_at};
ghost use Rattle.certificate_finder.specs.Owning.{IsUnsure};
ghost use Rattle.certificate_finder.specs.Putting.{ArePuts};
ghost use Rattle.certificate_finder.specs.Steps.{IsFit};
ghost use Rattle.certificate_finder.specs.Unreading.{AreByEnds, AreUnreadUpto, HasOpen, IsCrossedIf, IsFirstUnreadIn, IsLookedAt, IsOpen, IsUnreadIn};

use crate::by_ends::{ByEnds, last_other};
use crate::faults::CrossedWrites;
use crate::groups::Groups;
use crate::items::item_at;
use crate::linked_puts::LinkedPuts;
use crate::numbered_call::NumberedCall;
use crate::put::{Put, value_rank};
use crate::puts::puts_upto;
use crate::ranked::Ranked;
use crate::unread_hit::UnreadHit;
use record_pages::is_live;
use std::alloc::{AllocError, Global};

/// With what a put would be crossed, if a hit read it: of the other writes of its key the one whose zone starts last, of those that end
/// before the put's would start.
fn crossed_if(
    steps: &[NumberedCall],
    groups: &Groups,
    by_ends: &ByEnds,
    hit: u32,
    put: u32,
) -> Option<CrossedWrites>
    requires groups { AreGroups steps.now groups.now }
    requires by_ends { AreByEnds steps.now groups.now.owners.items by_ends.now }
    requires hit { hit < length steps.now }
    requires put { put < length steps.now }
    ensures { MatchOption result (IsOpen steps.now groups.now.owners.items hit put)
        (IsCrossedIf steps.now groups.now.owners.items hit put) }
{
    let given = item_at(steps, put as usize);
    let own = groups.side_if(steps, hit, put);
    let first = item_at(steps, own.early as usize);
    let last = item_at(steps, own.late as usize);
    let zones = by_ends.zones.as_slice();
    let tops = by_ends.tops.as_slice();
    match last_other(zones, tops, given.key, last.start, put) {
        Some(zone) => {
            if first.end < zone.start {
                Some(CrossedWrites {
                    one: own,
                    other: zone.side(),
                })
            } else {
                None
            }
        }
        None => None,
    }
}

/// Lists with what a put would be crossed, if it is live for a hit. The answer is no if it would not be.
fn look_at(
    reads: &mut Vec<CrossedWrites>,
    steps: &[NumberedCall],
    groups: &Groups,
    by_ends: &ByEnds,
    hit: u32,
    put: &Put,
) -> Result<bool, AllocError>
    requires groups { AreGroups steps.now groups.now }
    requires by_ends { AreByEnds steps.now groups.now.owners.items by_ends.now }
    requires hit { hit < length steps.now }
    requires put { put.now.position < length steps.now }
    ensures { IfOk result (λ fits. IsLookedAt steps.now groups.now.owners.items hit put.now fits reads.old.items reads.new.items) }
{
    let asked = item_at(steps, hit as usize);
    if !is_live(put.expires, asked.time) {
        return Ok(true);
    }
    let Some(crossed) = crossed_if(steps, groups, by_ends, hit, put.position) else {
        return Ok(false);
    };
    reads.push(crossed)?;
    Ok(true)
}

/// All puts that a hit can have read, if each would be crossed. It goes back over the puts that start no later than the hit ends, and
/// by the links past those that can no longer be read.
fn crossed_reads(
    alloc: Global,
    steps: &[NumberedCall],
    linked: LinkedPuts<'_>,
    groups: &Groups,
    by_ends: &ByEnds,
    hit: u32,
) -> Result<Option<Vec<CrossedWrites>>, AllocError>
    requires fit { All IsFit steps.now }
    requires puts { ArePuts steps.now linked.puts.now }
    requires links { AreLinks linked.puts.now linked.links.now }
    requires groups { AreGroups steps.now groups.now }
    requires by_ends { AreByEnds steps.now groups.now.owners.items by_ends.now }
    requires unsure { IsUnsure steps.now hit }
    ensures { IfOk result (λ reads. MatchOption reads (HasOpen steps.now groups.now.owners.items hit)
        (λ listed. IsUnreadIn steps.now groups.now.owners.items hit listed.items)) }
{
    let asked = item_at(steps, hit as usize);
    let least = value_rank(asked.key, asked.value, asked.start);
    let mut reads = Vec::new(alloc);
    let mut upto = puts_upto(linked.puts, value_rank(asked.key, asked.value, asked.end));
    while upto > 0 {
        let put = item_at(linked.puts, upto - 1);
        if put.last() < least {
            upto = item_at(linked.links, upto - 1) as usize;
        } else {
            if !look_at(&mut reads, steps, groups, by_ends, hit, &put)? {
                return Ok(None);
            }
            upto -= 1;
        }
    }
    Ok(Some(reads))
}

/// The first so many of these.
fn first_reads(
    alloc: Global,
    reads: &[CrossedWrites],
    most: usize,
) -> Result<Vec<CrossedWrites>, AllocError>
    ensures { IfOk result (λ first. first.items ≡ take most reads.now) }
{
    let few = &reads[..reads.len().min(most)];
    let mut first = Vec::new(alloc);
    first.extend_from_slice(few)?;
    Ok(first)
}

/// Those of these hits whose puts would all be crossed, in their order, each with the first so many of the puts that it can have read.
pub(crate) fn unread_among(
    alloc: Global,
    steps: &[NumberedCall],
    linked: LinkedPuts<'_>,
    groups: &Groups,
    by_ends: &ByEnds,
    hits: &[Ranked],
    most: usize,
) -> Result<Vec<UnreadHit>, AllocError>
    requires fit { All IsFit steps.now }
    requires puts { ArePuts steps.now linked.puts.now }
    requires links { AreLinks linked.puts.now linked.links.now }
    requires groups { AreGroups steps.now groups.now }
    requires by_ends { AreByEnds steps.now groups.now.owners.items by_ends.now }
    requires unsure { All (IsUnsure steps.now) (positions_in hits.now) }
    requires order { AllPairs (IsEarlierBy (stamp_at End steps.now)) (positions_in hits.now) }
    ensures { IfOk result (λ found. AreUnreadUpto steps.now groups.now.owners.items most (positions_in hits.now) (length hits.now) found.items) }
{
    let mut found = Vec::new(alloc);
    for index in 0..hits.len() {
        let hit = item_at(hits, index).position;
        let listed = crossed_reads(alloc, steps, linked, groups, by_ends, hit)?;
        if let Some(reads) = listed {
            let reads = first_reads(alloc, reads.as_slice(), most)?;
            found.push(UnreadHit { hit, reads })?;
        }
    }
    Ok(found)
}

/// The first of these hits whose puts would all be crossed, with all puts that it can have read.
pub(crate) fn first_unread(
    alloc: Global,
    steps: &[NumberedCall],
    linked: LinkedPuts<'_>,
    groups: &Groups,
    by_ends: &ByEnds,
    hits: &[Ranked],
) -> Result<Option<UnreadHit>, AllocError>
    requires fit { All IsFit steps.now }
    requires puts { ArePuts steps.now linked.puts.now }
    requires links { AreLinks linked.puts.now linked.links.now }
    requires groups { AreGroups steps.now groups.now }
    requires by_ends { AreByEnds steps.now groups.now.owners.items by_ends.now }
    requires unsure { All (IsUnsure steps.now) (positions_in hits.now) }
    ensures { IfOk result (λ found. MatchOption found
        (All (HasOpen steps.now groups.now.owners.items) (positions_in hits.now))
        (IsFirstUnreadIn steps.now groups.now.owners.items (positions_in hits.now))) }
{
    for index in 0..hits.len() {
        let hit = item_at(hits, index).position;
        let listed = crossed_reads(alloc, steps, linked, groups, by_ends, hit)?;
        if let Some(reads) = listed {
            return Ok(Some(UnreadHit { hit, reads }));
        }
    }
    Ok(None)
}
