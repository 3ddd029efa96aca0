// The lanes of a cache that is over.
ghost use Rattle.std.specs.Prelude.{◌≡◌, ◌≢◌, ◌<◌, ◌≤◌, ℕ, All, IfOk, IfErr, IsSomeAnd, Ok, length, map, slice_get, sum_by};
ghost use Rattle.std.specs.List.Sorted.{IsNonDecreasingBy, IsPermutation};
ghost use Rattle.recorded_lane.specs.Points.{noted_in};
ghost use Rattle.history_recorder.specs.Operations.{lane_of_key};
ghost use Rattle.certificate_checker.specs.Lanes.{Stamped, stamped};
ghost use Rattle.shared_cache.specs.Passes.{most_lanes};
ghost use Rattle.shared_cache.specs.declared.list_place.ListPlace.{ListPlace};
ghost use Rattle.shared_cache.specs.Finished.{weigh_passes};
ghost use Rattle.shared_cache.specs.Claimed.{IsEnded, IsNoBook, recorded_of};
ghost use Rattle.shared_cache.specs.Settled.{AreNumbered, AreSettled, IsFaultOf, IsNoEnd, IsNoneStrange, IsNotOwn, LeavesOpen, Settles, recorded_in};
ghost use Rattle.shared_cache.specs.Over.{AreOver, IsOver};

use crate::books::{LaneBook, Pass};
use crate::claims::{first_place, is_refused, place_outside};
use crate::finish_fault::FinishFault;
use crate::lane_fault::LaneFault;
use crate::lane_left::LaneLeft;
use crate::listed_calls::ListedCalls;
use crate::settling::settle;
use crossbeam_utils::CachePadded;
use history_recorder::Dones;
use page_device::PageDevice;
use record_pages::Layout;
use recorded_lane::RecordedParts;
use std::alloc::{AllocError, Global};
use std::collections::VecDeque;
use std::sync::Mutex;
use std::thread;
use std::thread::Threads;

/// The numbers and the calls of the lanes, and the devices, both in the order of the lanes.
pub(crate) fn take_apart<D: PageDevice<PAGE>, const PAGE: usize>(
    alloc: Global,
    layout: &Layout,
    books: Vec<Mutex<CachePadded<LaneBook<D, PAGE>>>>,
) -> Result<(Vec<LaneLeft>, Vec<D>), FinishFault>
    requires { length books.items ≤ most_lanes }
    ensures over { IfOk result (λ taken.
        AreOver D.honest (lane_of_key layout.now) 0 (recorded_in taken.0.items) taken.1.items) }
    ensures count { IfOk result (λ taken. length taken.0.items ≡ length books.items) }
    ensures devices { IfOk result (λ taken. length taken.1.items ≡ length books.items) }
    ensures numbered { IfOk result (λ taken. AreNumbered 0 taken.0.items) }
    ensures lost { IfErr result (IsNoBook (length books.items)) }
{
    let mut lanes = Vec::new(alloc);
    let mut devices = Vec::new(alloc);
    let mut left = VecDeque::from(books);
    while let Some(lock) = left.pop_front() {
        let lane = lanes.len() as u32;
        let parts = parts_of(lock, lane, layout)?;
        let recorded = parts.calls;
        let Ok(()) = lanes.push(LaneLeft { lane, recorded }) else {
            return Err(FinishFault::OutOfMemory);
        };
        let Ok(()) = devices.push(parts.device) else {
            return Err(FinishFault::OutOfMemory);
        };
    }
    Ok((lanes, devices))
}

/// The calls and the device of the lane with this number, if its book stands there.
fn parts_of<D: PageDevice<PAGE>, const PAGE: usize>(
    lock: Mutex<CachePadded<LaneBook<D, PAGE>>>,
    lane: u32,
    layout: &Layout,
) -> Result<RecordedParts<D>, FinishFault>
    ensures over { IfOk result (λ parts. IsOver D.honest (lane_of_key layout.now) lane
        (map noted_in parts.calls) parts.device) }
    ensures lost { IfErr result (λ fault. fault ≡ FinishFault.LaneLost lane) }
{
    let book = lock.into_inner().into_inner();
    if !book.is_of(lane, layout) {
        return Err(FinishFault::LaneLost { lane });
    }
    Ok(book.into_parts())
}

/// The lanes' calls with the ends that the passes list, if each is listed once and as it was recorded. The passes go by their
/// callers, and the lanes are gone through side by side.
pub(crate) fn ended_lanes<R: Threads + Sync>(
    rt: &R,
    alloc: Global,
    left: Vec<LaneLeft>,
    passes: Vec<Pass>,
) -> Result<Vec<Dones>, FinishFault>
    requires few { length left.items ≤ most_lanes }
    requires numbered { AreNumbered 0 left.items }
    ensures listed { IfOk result (λ lanes. (h : Stamped → ℕ) →
        sum_by h (stamped lanes.items) ≡ weigh_passes h passes.items) }
    ensures calls { IfOk result (λ lanes. recorded_of lanes.items ≡ recorded_in left.items) }
    ensures ended { IfOk result (λ lanes. All (All IsEnded) lanes.items) }
    ensures refused { IfErr result (IsNoEnd (recorded_in left.items) passes.items) }
{
    let ordered = by_caller(passes);
    match ended_by(rt, alloc, left, ordered.as_slice()) {
        Ok(lanes) => Ok(lanes),
        Err(fault) => Err(fault),
    }
}

/// The passes by their callers.
fn by_caller(passes: Vec<Pass>) -> Vec<Pass>
    ensures same { IsPermutation passes.items result.items }
    ensures sorted { IsNonDecreasingBy (λ p. p.caller) result.items }
{
    let mut passes = passes;
    passes.sort_unstable_by_key(|pass| pass.caller());
    passes
}

/// The lanes' calls with the ends that passes list, which go by their callers.
fn ended_by<R: Threads + Sync>(
    rt: &R,
    alloc: Global,
    left: Vec<LaneLeft>,
    passes: &[Pass],
) -> Result<Vec<Dones>, FinishFault>
    requires few { length left.items ≤ most_lanes }
    requires numbered { AreNumbered 0 left.items }
    ensures listed { IfOk result (λ lanes. (h : Stamped → ℕ) →
        sum_by h (stamped lanes.items) ≡ weigh_passes h passes.now) }
    ensures calls { IfOk result (λ lanes. recorded_of lanes.items ≡ recorded_in left.items) }
    ensures ended { IfOk result (λ lanes. All (All IsEnded) lanes.items) }
    ensures refused { IfErr result (IsNotOwn (recorded_in left.items) passes.now) }
{
    let lanes = left.len();
    let lists = lists_of(alloc, passes)?;
    let settled = settle_all(rt, alloc, left, lists.as_slice())?;
    if is_refused(settled.as_slice()) {
        return Err(FinishFault::OutOfMemory);
    }
    let outside = place_outside(lanes, lists.as_slice());
    if let Some(place) = first_place(settled.as_slice(), outside) {
        return Err(FinishFault::Strange {
            caller: caller_of(passes, place.pass),
            call: place.call,
        });
    }
    match all_settled(alloc, settled) {
        Ok(lanes) => Ok(lanes),
        Err(fault) => Err(fault),
    }
}

/// The caller of the pass at a place.
fn caller_of(passes: &[Pass], place: usize) -> u16
    requires { place < length passes.now }
    ensures { IsSomeAnd (slice_get passes.now place) (λ p. p.caller ≡ result) }
{
    passes[place].caller()
}

/// The calls that each pass lists, lent.
fn lists_of(alloc: Global, passes: &[Pass]) -> Result<Vec<ListedCalls<'_>>, AllocError>
    ensures { IfOk result (λ lists. lists.items ≡ map (λ p. p.calls) passes.now) }
{
    let mut lists = Vec::with_capacity(alloc, passes.len())?;
    for pass in passes {
        lists.push(pass.listed())?;
    }
    Ok(lists)
}

/// What comes of each lane, by the calls that are listed.
fn settle_all<R: Threads + Sync>(
    rt: &R,
    alloc: Global,
    left: Vec<LaneLeft>,
    lists: &[ListedCalls<'_>],
) -> Result<Vec<Result<Dones, LaneFault>>, AllocError>
    requires { AreNumbered 0 left.items }
    ensures { IfOk result (λ settled.
        AreSettled 0 lists.now (recorded_in left.items) settled.items) }
{
    let settled = |of_lane: LaneLeft| -> Result<Dones, LaneFault>
        ensures { Settles of_lane.lane (map noted_in of_lane.recorded) lists.entry.now result }
    { settle(alloc, of_lane, lists) };
    thread::map_vec(rt, left, &settled)
}

/// The calls of the lanes with their ends, if each lane was settled.
fn all_settled(
    alloc: Global,
    settled: Vec<Result<Dones, LaneFault>>,
) -> Result<Vec<Dones>, FinishFault>
    requires none { IsNoneStrange settled.items }
    requires few { length settled.items ≤ most_lanes }
    ensures all { IfOk result (λ lanes. settled.items ≡ map Ok lanes.items) }
    ensures refused { IfErr result (LeavesOpen settled.items) }
{
    let mut lanes = Vec::new(alloc);
    let mut left = VecDeque::from(settled);
    while let Some(of_lane) = left.pop_front() {
        let dones = match of_lane {
            Ok(dones) => dones,
            Err(fault) => return Err(fault_of(lanes.len() as u32, fault)),
        };
        let Ok(()) = lanes.push(dones) else {
            return Err(FinishFault::OutOfMemory);
        };
    }
    Ok(lanes)
}

/// Why a lane was not settled, if it is not that a call is strange.
fn fault_of(lane: u32, fault: LaneFault) -> FinishFault
    requires { (place : ListPlace) → fault ≢ LaneFault.Strange place }
    ensures { IsFaultOf lane fault result }
{
    match fault {
        LaneFault::OutOfMemory => FinishFault::OutOfMemory,
        LaneFault::Unlisted { position } => FinishFault::Unlisted { lane, position },
        // `first_place` found no lane with a strange call.
        LaneFault::Strange { place: _ } => unreachable!(),
    }
}
