// The writes of a history with the calls that go with each.
ghost use Rattle.std.specs.Prelude.{◌≡◌, ◌<◌, ◌^◌, All, IfOk, Some, length, slice_get, slice_set};
ghost use Rattle.certificate_finder.specs.Offering.{IsLater, IsSooner};

use crate::call_span::CallSpan;
use crate::ends::{earliest_of, latest_of};
use crate::items::item_at;
use crate::numbered_call::NumberedCall;
use crate::offer::Offer;
use crate::rule::Rule;
use crate::witness::Side;
use std::alloc::{AllocError, Global};

/// For each call the position of the one that it goes with, and for each position the calls of its zone.
#[derive(Drop)]
pub(crate) struct Groups {
    /// With which call each goes: itself, or a put that it can have read.
    pub(crate) owners: Vec<u32>,
    /// For each position the call that ends first, of those that go with it.
    pub(crate) earliest: Vec<u32>,
    /// For each position the call that starts last, of those that go with it.
    pub(crate) latest: Vec<u32>,
}

impl Groups {
    ghost use Rattle.certificate_finder.specs.Choosing.{IsOffer};
    ghost use Rattle.certificate_finder.specs.Offering.{AreGroups, times_in};
    ghost use Rattle.certificate_finder.specs.Unreading.{IsSideIf};

    /// The groups of these owners.
    pub(crate) fn of(
        alloc: Global,
        steps: &[NumberedCall],
        owners: &[u32],
    ) -> Result<Groups, AllocError>
        requires few { length steps.now < 2 ^ 31 }
        requires count { length owners.now ≡ length steps.now }
        requires within { All (λ owner. owner < length steps.now) owners.now }
        ensures owners { IfOk result (λ groups. groups.owners.items ≡ owners.now) }
        ensures groups { IfOk result (AreGroups steps.now) }
    {
        let earliest = earliest_of(alloc, steps, owners)?;
        let latest = latest_of(alloc, steps, owners)?;
        let owners = owners.to_vec(alloc)?;
        Ok(Groups {
            owners,
            earliest,
            latest,
        })
    }

    /// What a put costs a hit by a rule.
    pub(crate) fn offer(&self, steps: &[NumberedCall], rule: Rule, hit: u32, put: u32) -> Offer
        requires groups { AreGroups steps.now self.now }
        requires hit { hit < length steps.now }
        requires put { put < length steps.now }
        ensures put { result.put ≡ put }
        ensures offer { IsOffer rule (times_in steps.now) self.now.owners.items hit result }
    {
        let asked = item_at(steps, hit as usize);
        let given = item_at(steps, put as usize);
        let early = item_at(self.earliest.as_slice(), put as usize);
        let late = item_at(self.latest.as_slice(), put as usize);
        let first = item_at(steps, early as usize);
        let last = item_at(steps, late as usize);
        let zone = CallSpan {
            start: last.start,
            end: first.end,
        };
        let hit_times = asked.times();
        let put_times = given.times();
        let cost = rule.cost(hit_times, put_times, zone);
        Offer {
            put,
            start: given.start,
            cost,
        }
    }

    /// A put with the calls that would go with it, if a hit read it: which of them ends first, and which starts last.
    pub(crate) fn side_if(&self, steps: &[NumberedCall], hit: u32, put: u32) -> Side
        requires groups { AreGroups steps.now self.now }
        requires hit { hit < length steps.now }
        requires put { put < length steps.now }
        ensures { IsSideIf steps.now self.now.owners.items hit put result }
    {
        let step = item_at(steps, hit as usize);
        let known = item_at(self.earliest.as_slice(), put as usize);
        let early = earlier(steps, known, hit, &step);
        let noted = item_at(self.latest.as_slice(), put as usize);
        let late = later(steps, noted, hit, &step);
        Side {
            write: put,
            early,
            late,
        }
    }

    /// Lets a hit that goes by itself go with a put.
    pub(crate) fn join(&mut self, steps: &[NumberedCall], hit: u32, put: u32)
        requires groups { AreGroups steps.now self.old }
        requires alone { slice_get self.old.owners.items hit ≡ Some hit }
        requires hit { hit < length steps.now }
        requires put { put < length steps.now }
        ensures owners { self.new.owners.items ≡ slice_set self.old.owners.items hit put }
        ensures groups { AreGroups steps.now self.new }
    {
        let step = item_at(steps, hit as usize);
        let known = item_at(self.earliest.as_slice(), put as usize);
        let early = earlier(steps, known, hit, &step);
        let noted = item_at(self.latest.as_slice(), put as usize);
        let late = later(steps, noted, hit, &step);
        self.owners[hit as usize] = put;
        self.earliest[put as usize] = early;
        self.latest[put as usize] = late;
    }
}

/// Of a call and a hit the one that ends first.
fn earlier(steps: &[NumberedCall], known: u32, hit: u32, step: &NumberedCall) -> u32
    requires known { known < length steps.now }
    ensures { IsSooner steps.now known hit step.now result }
{
    let best = item_at(steps, known as usize);
    if step.end < best.end { hit } else { known }
}

/// Of a call and a hit the one that starts last.
fn later(steps: &[NumberedCall], known: u32, hit: u32, step: &NumberedCall) -> u32
    requires known { known < length steps.now }
    ensures { IsLater steps.now known hit step.now result }
{
    let best = item_at(steps, known as usize);
    if best.start < step.start { hit } else { known }
}
