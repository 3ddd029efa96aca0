// The certificate of some lanes, merged by point and lane.
ghost use Rattle.std.specs.Prelude.{◌≡◌, ◌+◌, ◌<◌, ◌≤◌, ◌^◌, All, IfOk, IsSomeAnd, length, slice_get};
ghost use Rattle.std.specs.List.{flat_map};
ghost use Rattle.certificate_checker.specs.Lanes.{calls_of, PointsRise};
ghost use Rattle.history_recorder.specs.Merging.{AtTheFirst, IsFirstBelow, ListsNext, ListsAll};

use crate::dones::Dones;
use crate::lane_head::LaneHead;
use crate::next_call::NextCall;
use std::alloc::{AllocError, Global};
use trace_file::Certificate;

/// The positions of the lanes' calls, which stand one lane after the other, by point, and at equal points those of
/// the lesser lane first.
pub(crate) fn certificate_of(alloc: Global, lanes: &[Dones]) -> Result<Certificate, AllocError>
    requires rise { All PointsRise lanes.now }
    requires few { length (flat_map calls_of lanes.now) ≤ 2 ^ 28 }
    ensures { IfOk result (λ certificate. ListsAll lanes.now certificate) }
{
    let mut heads = heads_of(alloc, lanes)?;
    let mut certificate = Certificate::new(alloc);
    while let Some(next) = first_next(lanes, &heads) {
        let position = list_next(&mut heads, next.lane);
        certificate.push(position)?;
    }
    Ok(certificate)
}

/// The heads of lanes of which no call is listed.
fn heads_of(alloc: Global, lanes: &[Dones]) -> Result<Vec<LaneHead>, AllocError>
    requires { length (flat_map calls_of lanes.now) ≤ 2 ^ 28 }
    ensures { IfOk result (λ heads. AtTheFirst lanes.now heads.items) }
{
    let mut heads = Vec::new(alloc);
    let mut first = 0;
    for lane in lanes {
        heads.push(LaneHead { first, listed: 0 })?;
        first += lane.len() as u32;
    }
    Ok(heads)
}

/// The first, by point and lane, of the lanes' next calls, or none if all calls are listed.
fn first_next(lanes: &[Dones], heads: &[LaneHead]) -> Option<NextCall>
    requires { length heads.now ≡ length lanes.now }
    ensures { IsFirstBelow lanes.now heads.now (length lanes.now) result }
{
    let mut first = None;
    for number in 0..lanes.len() {
        first = first_with(lanes, heads, number, first);
    }
    first
}

/// The first of the next calls of the lanes up to this one, by the first of those before it.
fn first_with(
    lanes: &[Dones],
    heads: &[LaneHead],
    number: usize,
    first: Option<NextCall>,
) -> Option<NextCall>
    requires in_heads { number < length heads.now }
    requires in_lanes { number < length lanes.now }
    requires first { IsFirstBelow lanes.now heads.now number first }
    ensures { IsFirstBelow lanes.now heads.now (number + 1) result }
{
    let lane = &lanes[number];
    let listed = heads[number].listed;
    if listed >= lane.len() {
        return first;
    }
    let next = NextCall {
        lane: number,
        point: lane.point(listed),
    };
    match first {
        None => Some(next),
        Some(held) => {
            if next.point < held.point {
                Some(next)
            } else {
                Some(held)
            }
        }
    }
}

/// Counts the next call of a lane as listed, and gives its position.
fn list_next(heads: &mut [LaneHead], number: usize) -> u32
    requires { IsSomeAnd (slice_get heads.old number) (λ head. head.first + head.listed < 2 ^ 32) }
    ensures { ListsNext heads.old heads.new number result }
{
    let head = &mut heads[number];
    let position = head.first + head.listed as u32;
    head.listed += 1;
    position
}
