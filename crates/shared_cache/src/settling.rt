// A lane's calls with the ends that are listed.
ghost use Rattle.std.specs.Prelude.{◌≡◌, ◌+◌, ◌<◌, ◌++◌, [], List, IfSome, IfNone, length, map};
ghost use Rattle.recorded_lane.specs.Points.{noted_in};
ghost use Rattle.shared_cache.specs.Listed.{Listed};
ghost use Rattle.shared_cache.specs.Settled.{IsMade, IsStrangeIn, IsStrangeAt, Settles, all_in};

use crate::lane_claims::{LaneClaims, Unready};
use crate::lane_fault::LaneFault;
use crate::lane_left::LaneLeft;
use crate::list_place::ListPlace;
use crate::listed_calls::ListedCalls;
use history_recorder::Dones;
use std::alloc::Global;

/// The calls of a lane with the ends that the lists of passes have, if each is listed once and as it was recorded. Other lanes' calls are
/// passed over.
pub(crate) fn settle(
    alloc: Global,
    left: LaneLeft,
    lists: &[ListedCalls<'_>],
) -> Result<Dones, LaneFault>
    ensures { Settles left.lane (map noted_in left.recorded) lists.now result }
{
    let LaneLeft { lane, recorded } = left;
    let Ok(mut claims) = LaneClaims::new(alloc, recorded) else {
        return Err(LaneFault::OutOfMemory);
    };
    if let Some(place) = claim_listed(&mut claims, lane, lists) {
        return Err(LaneFault::Strange { place });
    }
    match claims.close(alloc) {
        Ok(dones) => Ok(dones),
        Err(Unready::OutOfMemory) => Err(LaneFault::OutOfMemory),
        Err(Unready::Unclaimed { position }) => Err(LaneFault::Unlisted { position }),
    }
}

/// Claims, in order, each call of the lists that is of this lane; stops at the first that the lane did not record so,
/// or that is claimed already.
fn claim_listed(claims: &mut LaneClaims, lane: u32, lists: &[ListedCalls<'_>]) -> Option<ListPlace>
    requires { IsMade lane claims.old [] }
    ensures calls { claims.new.calls ≡ claims.old.calls }
    ensures made { IfNone result (IsMade lane claims.new (all_in lists.now)) }
    ensures strange { IfSome result (IsStrangeAt lane claims.old.calls lists.now) }
{
    for pass in 0..lists.len() {
        if let Some(call) = claim_calls(claims, lane, &lists[pass]) {
            return Some(ListPlace { pass, call });
        }
    }
    None
}

/// Claims, in order, each call of the list that is of this lane; stops at the first that the lane did not record so, or
/// that is claimed already. Earlier lists are claimed already.
fn claim_calls(claims: &mut LaneClaims, lane: u32, calls: &ListedCalls<'_>) -> Option<usize>
    ensures calls { claims.new.calls ≡ claims.old.calls }
    ensures made { IfNone result ((before : List Listed) → IsMade lane claims.old before
        → IsMade lane claims.new (before ++ calls.now)) }
    ensures within { IfSome result (λ place. place < length calls.now) }
    ensures strange { IfSome result (λ place. (before : List Listed) → IsMade lane claims.old before
        → IsStrangeIn lane claims.old.calls (before ++ calls.now) (length before + place)) }
{
    for place in 0..calls.len() {
        if calls.lane_at(place) == lane && !claims.claim(&calls.at(place)) {
            return Some(place);
        }
    }
    None
}
