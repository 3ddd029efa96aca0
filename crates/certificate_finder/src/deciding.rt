// Trying the rules one after the other, and for each key the first one that gives a certificate.
ghost use Rattle.std.specs.Prelude.{◌<◌, ◌^◌, List, All, AllPairs, IfOk, MatchOption, OnOk, length};
ghost use Rattle.certificate_finder.specs.Choosing.{all_rules};
ghost use Rattle.certificate_finder.specs.Deciding.{FailAtSome, IsMix, IsMixOf, IsReady, IsTried, MakesAccepted, NoneGives};
ghost use Rattle.certificate_finder.specs.declared.zone.Zone.{Zone};
ghost use Rattle.certificate_finder.specs.Lining.{positions_in};
ghost use Rattle.certificate_finder.specs.Owning.{AreOwners, AreSureOwners};
ghost use Rattle.certificate_finder.specs.Steps.{IsFit};
ghost use Rattle.certificate_finder.specs.Zones.{AreZones, FollowOn};

use crate::choosing::choose;
use crate::crossings::still_stuck;
use crate::groups::Groups;
use crate::hits::all_puts_of;
use crate::in_turn::hits_in_turn;
use crate::line::certificate_by_zones;
use crate::linked_puts::LinkedPuts;
use crate::links::links_of;
use crate::mix::Mix;
use crate::numbered_call::NumberedCall;
use crate::ranked::Ranked;
use crate::rule::{RULES, Rule, rule_at};
use crate::stamp::Stamp;
use crate::zoning::{sorted_zones, zones_of};
use std::alloc::{AllocError, Global};
use trace_file::Certificate;

/// A certificate by the rules, if for each key one of them gives one.
///
/// `owners` has the sure owners, `unsure` the hits that can have read several puts.
pub(crate) fn certificate_by_rules(
    alloc: Global,
    steps: &[NumberedCall],
    owners: &[u32],
    unsure: &[u32],
) -> Result<Option<Certificate>, AllocError>
    requires few { length steps.now < 2 ^ 31 }
    requires fit { All IsFit steps.now }
    requires owners { AreSureOwners steps.now (length steps.now) owners.now unsure.now }
    ensures { IfOk result (λ found.
        MatchOption found (NoneGives steps.now owners.now unsure.now) (MakesAccepted steps.now)) }
{
    let puts = all_puts_of(alloc, steps)?;
    let links = links_of(alloc, puts.as_slice())?;
    let hits = hits_in_turn(alloc, steps, unsure, Stamp::Start)?;
    let linked = LinkedPuts {
        puts: puts.as_slice(),
        links: links.as_slice(),
    };
    match tried(alloc, steps, owners, linked, hits.as_slice()) {
        Ok(certificate) => Ok(certificate),
        Err(refused) => Err(refused),
    }
}

/// The same for hits that are in turn, by the puts and their links.
fn tried(
    alloc: Global,
    steps: &[NumberedCall],
    owners: &[u32],
    linked: LinkedPuts<'_>,
    hits: &[Ranked],
) -> Result<Option<Certificate>, AllocError>
    requires few { length steps.now < 2 ^ 31 }
    requires fit { All IsFit steps.now }
    requires ready { IsReady steps.now owners.now linked.puts.now linked.links.now hits.now }
    ensures { IfOk result (λ found.
        MatchOption found (FailAtSome steps.now owners.now (positions_in hits.now))
        (MakesAccepted steps.now)) }
{
    let mix = mixed(alloc, steps, owners, linked, hits)?;
    if mix.is_stuck() {
        return Ok(None);
    }
    let certificate = certificate_by_owners(alloc, steps, mix.owners.as_slice())?;
    Ok(Some(certificate))
}

/// The owners of all calls by the rules of their keys, one rule after the other while a key is stuck.
fn mixed(
    alloc: Global,
    steps: &[NumberedCall],
    owners: &[u32],
    linked: LinkedPuts<'_>,
    hits: &[Ranked],
) -> Result<Mix, AllocError>
    requires few { length steps.now < 2 ^ 31 }
    requires fit { All IsFit steps.now }
    requires ready { IsReady steps.now owners.now linked.puts.now linked.links.now hits.now }
    ensures { IfOk result (IsMixOf steps.now owners.now (positions_in hits.now) (length all_rules)) }
{
    let mut mix = Mix::of(alloc, steps, owners)?;
    for index in 0..RULES {
        let rule = rule_at(index);
        try_rule(alloc, &mut mix, steps, owners, linked, hits, rule)?;
        if !mix.is_stuck() {
            return Ok(mix);
        }
    }
    Ok(mix)
}

/// Settles the stuck keys that have no two crossed zones by a rule's choice.
fn try_rule(
    alloc: Global,
    mix: &mut Mix,
    steps: &[NumberedCall],
    owners: &[u32],
    linked: LinkedPuts<'_>,
    hits: &[Ranked],
    rule: Rule,
) -> Result<(), AllocError>
    requires few { length steps.now < 2 ^ 31 }
    requires fit { All IsFit steps.now }
    requires ready { IsReady steps.now owners.now linked.puts.now linked.links.now hits.now }
    requires mix { IsMix steps.now mix.old }
    ensures { OnOk result (IsTried steps.now owners.now (positions_in hits.now) rule mix.old mix.new) }
{
    let mut groups = Groups::of(alloc, steps, owners)?;
    choose(&mut groups, steps, linked.puts, linked.links, hits, rule);
    let chosen = groups.owners.as_slice();
    let earliest = groups.earliest.as_slice();
    let zones = sorted_zones(alloc, steps, chosen, earliest, groups.latest.as_slice())?;
    let still = still_stuck(alloc, zones.as_slice(), mix.stuck.as_slice())?;
    mix.take(steps, chosen, still);
    Ok(())
}

/// The certificate by these owners, whose zones follow on.
fn certificate_by_owners(
    alloc: Global,
    steps: &[NumberedCall],
    owners: &[u32],
) -> Result<Certificate, AllocError>
    requires few { length steps.now < 2 ^ 31 }
    requires fit { All IsFit steps.now }
    requires owners { AreOwners steps.now owners.now }
    requires follow { (zones : List Zone) → AreZones steps.now owners.now zones
        → AllPairs FollowOn zones }
    ensures { IfOk result (MakesAccepted steps.now) }
{
    let zones = zones_of(alloc, steps, owners)?;
    match certificate_by_zones(alloc, steps, owners, zones) {
        Ok(certificate) => Ok(certificate),
        Err(refused) => Err(refused),
    }
}
