// What is told of the calls of a stream.
ghost use Rattle.std.specs.Prelude.{◌≡◌, ◌<◌, ◌==◌, if◌then◌else◌, max, ◌^◌, ◌&&◌, min, nat_le, IfNone, IfOk, IfSome, IsSomeAnd, length, slice_get, take};
ghost use Rattle.record_pages.specs.Expiry.{never};
ghost use Rattle.trace_file.specs.Lent.{act_shown};
ghost use Rattle.history_window.specs.Acts.{is_reading};
ghost use Rattle.history_window.specs.Standing.{StartFrom};
ghost use Rattle.history_window.specs.Streams.{ArePast, AreRecent, first_start, last_end};

use crate::settling::list_position;
use crate::states::is_hit;
use certificate_finder::MAX_CALLS;
use record_pages::NEVER;
use std::alloc::{AllocError, Global};
use trace_file::{CallRef, History};

/// The position of the first call that starts before a stamp, if there is one.
pub fn first_before(history: &History, bound: u64) -> Option<usize>
    ensures some { IfSome result (λ position. IsSomeAnd (slice_get history.now position)
        (λ call. call.start < bound) × StartFrom bound (take position history.now)) }
    ensures none { IfNone result (StartFrom bound history.now) }
{
    for position in 0..history.len() {
        if history.at(position).start < bound {
            return Some(position);
        }
    }
    None
}

/// The last end of calls that returned, or this stamp, if that is later.
pub fn last_end(history: &History, latest: u64) -> u64
    ensures { result ≡ last_end latest history.now }
{
    let mut last = latest;
    for position in 0..history.len() {
        last = later_end(last, history.at(position).end);
    }
    last
}

/// The later of a stamp and an end, if that is one of a call that returned.
fn later_end(latest: u64, end: u64) -> u64
    ensures { result ≡ (if end == never then latest else max latest end) }
{
    if end == NEVER || end < latest {
        latest
    } else {
        end
    }
}

/// The first start of calls, or this stamp, if that is earlier.
pub fn first_start(history: &History, first: u64) -> u64
    ensures { result ≡ first_start first history.now }
{
    let mut earliest = first;
    for position in 0..history.len() {
        earliest = earlier_of(earliest, history.at(position).start);
    }
    earliest
}

/// The earlier of two stamps.
fn earlier_of(one: u64, other: u64) -> u64
    ensures { result ≡ min one other }
{
    if other < one { other } else { one }
}

/// The positions of all calls of a history but for the hits that ended at a stamp or later, in order. `AllocError` comes if memory was
/// refused, and if there are more than `MAX_CALLS` calls.
pub fn past(alloc: Global, history: &History, bound: u64) -> Result<Vec<u32>, AllocError>
    ensures { IfOk result (λ kept. ArePast bound history.now kept.items) }
{
    if history.len() > MAX_CALLS {
        return Err(AllocError);
    }
    let mut kept = Vec::new(alloc);
    for position in 0..history.len() {
        let stays = !is_recent(&history.at(position), bound);
        list_position(&mut kept, position as u32, stays)?;
    }
    Ok(kept)
}

/// The positions of the hits of a history that ended at a stamp or later, in order: those that `past` leaves out. It refuses as `past`
/// does.
pub fn recent(alloc: Global, history: &History, bound: u64) -> Result<Vec<u32>, AllocError>
    ensures { IfOk result (λ waiting. AreRecent bound history.now waiting.items) }
{
    if history.len() > MAX_CALLS {
        return Err(AllocError);
    }
    let mut waiting = Vec::new(alloc);
    for position in 0..history.len() {
        let waits = is_recent(&history.at(position), bound);
        list_position(&mut waiting, position as u32, waits)?;
    }
    Ok(waiting)
}

/// Whether a call is a hit that ended at a stamp or later.
fn is_recent(call: &CallRef<'_>, bound: u64) -> bool
    ensures { result ≡ (is_reading (act_shown call.now.act) && nat_le bound call.now.end) }
{
    is_hit(&call.act) && bound <= call.end
}
