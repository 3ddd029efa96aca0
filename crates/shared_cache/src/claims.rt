// What passes tell of callers and lanes, beside the calls of one lane.
ghost use Rattle.std.specs.Prelude.{◌≡◌, ◌<◌, ℕ, ◌↔◌, true, IfSome, IfNone, IsTrue, All};
ghost use Rattle.shared_cache.specs.Finished.{has_pass, IsLeastMissing};
ghost use Rattle.shared_cache.specs.Settled.{FindsFirst, IsEarlier, IsOutAt, IsOutIn, IsRefused, all_in, place_in};

use crate::books::Pass;
use crate::lane_fault::LaneFault;
use crate::list_place::ListPlace;
use crate::listed_calls::ListedCalls;
use history_recorder::Dones;

/// The least of this many callers that has no pass. It is quick if each pass stands at its caller's number.
pub(crate) fn missing(callers: u16, passes: &[Pass]) -> Option<u16>
    ensures some { IfSome result (λ caller. IsLeastMissing callers passes.now caller) }
    ensures none { IfNone result
        ((caller : ℕ) → caller < callers → has_pass passes.now caller ≡ true) }
{
    for caller in 0..callers {
        if !has(passes, caller) {
            return Some(caller);
        }
    }
    None
}

/// Whether a pass of the caller is there.
fn has(passes: &[Pass], caller: u16) -> bool
    ensures { result ≡ has_pass passes.now caller }
{
    let place = caller as usize;
    if place < passes.len() && passes[place].caller() == caller {
        return true;
    }
    passes.iter().any(|pass| pass.caller() == caller)
}

/// The first call that is listed of none of this many lanes.
pub(crate) fn place_outside(lanes: usize, lists: &[ListedCalls<'_>]) -> Option<ListPlace>
    ensures none { IfNone result (All (λ l. l.lane < lanes) (all_in lists.now)) }
    ensures some { IfSome result (IsOutAt lanes lists.now) }
{
    for pass in 0..lists.len() {
        if let Some(call) = call_outside(lanes, &lists[pass]) {
            return Some(ListPlace { pass, call });
        }
    }
    None
}

/// The first call of a list that is listed of none of this many lanes.
fn call_outside(lanes: usize, calls: &ListedCalls<'_>) -> Option<usize>
    ensures none { IfNone result (All (λ l. l.lane < lanes) calls.now) }
    ensures some { IfSome result (IsOutIn lanes calls.now) }
{
    for place in 0..calls.len() {
        if calls.lane_at(place) as usize >= lanes {
            return Some(place);
        }
    }
    None
}

/// Whether memory was refused for some lane.
pub(crate) fn is_refused(settled: &[Result<Dones, LaneFault>]) -> bool
    ensures { IsTrue result ↔ IsRefused settled.now }
{
    settled
        .iter()
        .any(|lane| matches!(lane, Err(LaneFault::OutOfMemory)))
}

/// The first of the places at which what came of the lanes is strange, and of another place, if there is one.
pub(crate) fn first_place(
    settled: &[Result<Dones, LaneFault>],
    other: Option<ListPlace>,
) -> Option<ListPlace>
    ensures { FindsFirst other settled.now result }
{
    let mut first = other;
    for lane in settled {
        if let Some(place) = strange_place(lane) {
            first = Some(earlier(first, place));
        }
    }
    first
}

/// The place at which what came of a lane is strange.
fn strange_place(settled: &Result<Dones, LaneFault>) -> Option<ListPlace>
    ensures { result ≡ place_in settled.now }
{
    match settled {
        Ok(_) => None,
        Err(LaneFault::OutOfMemory) => None,
        Err(LaneFault::Strange { place }) => Some(*place),
        Err(LaneFault::Unlisted { position: _ }) => None,
    }
}

/// The first of two places, or the one that there is.
fn earlier(first: Option<ListPlace>, place: ListPlace) -> ListPlace
    ensures { IsEarlier first place result }
{
    let Some(first) = first else {
        return place;
    };
    if place.pass < first.pass || (place.pass == first.pass && place.call < first.call) {
        return place;
    }
    first
}
