// Choosing a put for each hit that can have read several.
ghost use Rattle.std.specs.Prelude.{◌≡◌, ◌<◌, ◌^◌, All, AllPairs, IfOk, length};
ghost use Rattle.certificate_finder.specs.Choosing.{ChoosesBy, ComesBefore, IsChosen};
ghost use Rattle.certificate_finder.specs.Lining.{positions_in};
ghost use Rattle.certificate_finder.specs.Offering.{AreGroups, AreLinks, GoesByItself, IsBestOffer, IsWithPut, ReadsIn, times_in};
ghost use Rattle.certificate_finder.specs.Owning.{IsUnsure};
ghost use Rattle.certificate_finder.specs.Putting.{ArePuts};
ghost use Rattle.certificate_finder.specs.Steps.{IsFit};

use crate::groups::Groups;
use crate::items::item_at;
use crate::numbered_call::NumberedCall;
use crate::offer::Offer;
use crate::put::{Put, value_rank};
use crate::puts::puts_upto;
use crate::ranked::Ranked;
use crate::rule::Rule;
use record_pages::is_live;

/// Gives each of the hits, in their order, the put that a rule chooses of those that it can have read.
pub(crate) fn choose(
    groups: &mut Groups,
    steps: &[NumberedCall],
    puts: &[Put],
    links: &[u32],
    hits: &[Ranked],
    rule: Rule,
)
    requires fit { All IsFit steps.now }
    requires puts { ArePuts steps.now puts.now }
    requires links { AreLinks puts.now links.now }
    requires groups { AreGroups steps.now groups.old }
    requires unsure { All (IsUnsure steps.now) (positions_in hits.now) }
    requires alone { All (GoesByItself groups.old.owners.items) (positions_in hits.now) }
    requires order { AllPairs (ComesBefore (times_in steps.now)) (positions_in hits.now) }
    ensures groups { AreGroups steps.now groups.new }
    ensures chosen { ChoosesBy rule (ReadsIn steps.now) (times_in steps.now) groups.old.owners.items
        (positions_in hits.now) groups.new.owners.items }
{
    for index in 0..hits.len() {
        let hit = item_at(hits, index);
        let put = chosen_put(groups, steps, puts, links, hit.position, rule);
        groups.join(steps, hit.position, put);
    }
}

/// The put that a rule chooses for a hit, of those that it can have read.
fn chosen_put(
    groups: &Groups,
    steps: &[NumberedCall],
    puts: &[Put],
    links: &[u32],
    hit: u32,
    rule: Rule,
) -> u32
    requires fit { All IsFit steps.now }
    requires puts { ArePuts steps.now puts.now }
    requires links { AreLinks puts.now links.now }
    requires groups { AreGroups steps.now groups.now }
    requires unsure { IsUnsure steps.now hit }
    ensures { IsChosen rule (ReadsIn steps.now) (times_in steps.now) groups.now.owners.items hit result }
{
    match best_offer(groups, steps, puts, links, hit, rule) {
        Some(offer) => offer.put,
        None => hit,
    }
}

/// Of the puts that a hit can have read the one that a rule prefers. It goes back over the puts that start no later than
/// the hit ends, and by the links past those that can no longer be read.
fn best_offer(
    groups: &Groups,
    steps: &[NumberedCall],
    puts: &[Put],
    links: &[u32],
    hit: u32,
    rule: Rule,
) -> Option<Offer>
    requires fit { All IsFit steps.now }
    requires puts { ArePuts steps.now puts.now }
    requires links { AreLinks puts.now links.now }
    requires groups { AreGroups steps.now groups.now }
    requires unsure { IsUnsure steps.now hit }
    ensures { IsBestOffer steps.now puts.now groups.now.owners.items rule hit 0 (length puts.now) result }
{
    let asked = item_at(steps, hit as usize);
    let least = value_rank(asked.key, asked.value, asked.start);
    let mut best = None;
    let mut upto = puts_upto(puts, value_rank(asked.key, asked.value, asked.end));
    while upto > 0 {
        let put = item_at(puts, upto - 1);
        if put.last() < least {
            upto = item_at(links, upto - 1) as usize;
        } else {
            best = with_put(best, groups, steps, hit, rule, &put);
            upto -= 1;
        }
    }
    best
}

/// The best offer so far with one put more, if that is live.
fn with_put(
    best: Option<Offer>,
    groups: &Groups,
    steps: &[NumberedCall],
    hit: u32,
    rule: Rule,
    put: &Put,
) -> Option<Offer>
    requires groups { AreGroups steps.now groups.now }
    requires within { hit < length steps.now }
    requires put { put.now.position < length steps.now }
    ensures { IsWithPut steps.now groups.now.owners.items rule hit put.now best result }
{
    let asked = item_at(steps, hit as usize);
    if !is_live(put.expires, asked.time) {
        return best;
    }
    let offer = groups.offer(steps, rule, hit, put.position);
    Some(offer.or_better(best))
}
