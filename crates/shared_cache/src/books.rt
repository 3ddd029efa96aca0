// What a lane's lock keeps, and what a caller carries. Nothing outside this file lists a call in a pass, or has a book
// record one.
ghost use Rattle.std.specs.Prelude.{◌≡◌, ◌≢◌, ◌↔◌, ◌+◌, ◌<◌, ◌≤◌, ◌^◌, ◌++◌, ◌∷◌, [], All, IfOk, IfErr, OnOk, OnErr, IsTrue, Some, ◌⊎◌, length, map, max, slice_get, slice_set};
ghost use Rattle.std.specs.Option.{option_map};
ghost use Rattle.std.specs.Vec.{vec_capacity};
ghost use Rattle.record_pages.specs.Bounded.{IsKey, IsValue};
ghost use Rattle.record_pages.specs.Asked.{layout_pages, HasNumbersOf};
ghost use Rattle.record_pages.specs.Sizes.{IsPageSize};
ghost use Rattle.mover.specs.Store.{opening};
ghost use Rattle.recorded_lane.specs.Lane.{IsOfLane, max_calls};
ghost use Rattle.recorded_lane.specs.Points.{noted_in, noted_shown};
ghost use Rattle.history_recorder.specs.Operations.{key_of, lane_of_key};
ghost use Rattle.trace_file.specs.Calls.{value_of};
ghost use Rattle.trace_file.specs.Lent.{act_shown};
ghost use Rattle.trace_file.specs.Stored.{LiesIn, call_in};
ghost use Rattle.shared_cache.specs.Listed.{listed_shown};
ghost use Rattle.shared_cache.specs.Passes.{former, kept_with_end, most_bytes, with_end, IsTimely, new_ticket, most_lanes};
ghost use Rattle.shared_cache.specs.Over.{IsOver};
ghost use Rattle.shared_cache.specs.Acts.{Explains, IsActed, IsBook, IsFitting, IsReady, IsUnacted, Stands, request_shown};
ghost use Rattle.shared_cache.specs.Caches.{KeepsTie};

use crate::act_answer::ActAnswer;
use crate::act_fault::ActFault;
use crate::clock::{Clock, ClockSeat};
use crate::clock_full::ClockFull;
use crate::comparing::is_recorded_as;
use crate::copying::copy_of;
use crate::listed_calls::ListedCalls;
use crate::listed_entry::ListedEntry;
use crate::listed_ref::ListedRef;
use crate::performing::perform;
use crate::request::Request;
use history_recorder::Stamps;
use page_device::{Boxed, PageDevice};
use record_pages::{Config, Key, Layout, Value};
use recorded_lane::{MAX_CALLS, NotedRef, RecordedLane, RecordedParts};
use std::alloc::{AllocError, Global};
use std::marker::Model;
use trace_file::{CallRef, StoredCall};

mod background;

/// The most lanes of a cache.
pub(crate) const MAX_LANES: usize = record_pages::MAX_LANES as usize;

/// The most bytes of a call's key and value.
const MOST_BYTES: usize = Key::MAX_LEN + Value::MAX_LEN;

/// The right of one caller to make calls, one at a time, with a list of those that it made.
///
/// It has a seat at the clock of its cache, so a call starts above all that the pass has seen, and the pass has seen
/// the call's end once it returns.
#[derive(Drop)]
pub struct Pass {
    caller: u16,
    seat: ClockSeat,
    calls: Vec<ListedEntry>,
    // The bytes of their keys and values.
    bytes: Vec<u8>,
    // For each lane the place in the list of its last call.
    former: [Option<usize>; MAX_LANES],
}

impl Model for Pass {
    ghost use Rattle.shared_cache.specs.Listed.{calls_listed};
    ghost use Rattle.shared_cache.specs.Passes.{Ticket, KeepsCalls};

    ghost Value = { Ticket };

    ghost view = { λ p. record {
      caller = p.caller;
      sight = p.seat;
      calls = calls_listed p.bytes.items p.calls.items;
    } };

    ghost invariant = { λ p. KeepsCalls p.seat.seen p.bytes.items p.calls.items p.former };
}

impl Pass {
    /// The pass of a caller that has made no call.
    pub(crate) fn new(alloc: Global, caller: u16, seat: ClockSeat) -> Pass
        ensures { result ≡ new_ticket caller seat }
    {
        Pass {
            caller,
            seat,
            calls: Vec::new(alloc),
            bytes: Vec::new(alloc),
            former: [None; MAX_LANES],
        }
    }

    /// The number of its caller, counted from 0.
    pub fn caller(&self) -> u16
        ensures { result ≡ self.now.caller }
    {
        self.caller
    }

    /// How many calls it lists.
    pub fn len(&self) -> usize
        ensures count { result ≡ length self.now.calls }
        ensures timely { All (IsTimely self.now.sight.seen) self.now.calls }
    {
        self.calls.len()
    }

    /// Whether it lists no call.
    pub fn is_empty(&self) -> bool
        ensures { IsTrue result ↔ (self.now.calls ≡ []) }
    {
        self.calls.is_empty()
    }

    /// The greatest stamp that it has seen. After a call that succeeded, that is the call's end.
    pub fn seen(&self) -> u64
        ensures seen { result ≡ self.now.sight.seen }
        ensures within { result < 2 ^ 63 }
    {
        self.seat.seen()
    }

    /// Has seen a stamp that its caller was told of, so that the next call starts above it: each call that ended at or
    /// before that stamp precedes the next one. It takes no step of the clock. A stamp past the last one, `LAST_STAMP`,
    /// is refused with `ClockFull`, and changes nothing.
    pub fn meet(&mut self, stamp: u64) -> Result<(), ClockFull>
        ensures met { OnOk result ((stamp < 2 ^ 63)
            × (self.new.sight.seen ≡ max stamp self.old.sight.seen)) }
        ensures full { OnErr result ((2 ^ 63 ≤ stamp) × (self.new ≡ self.old)) }
        ensures calls { self.new.calls ≡ self.old.calls }
        ensures tie { KeepsTie self.old self.new }
    {
        self.seat.meet(stamp)
    }

    /// Draws the start of a call.
    pub(crate) fn start(&mut self, clock: &Clock) -> Result<u64, ClockFull>
        requires { self.old.sight.clock ≡ clock.now }
        ensures start { IfOk result (λ start. (self.old.sight.seen < start)
            × (self.new.sight.seen ≡ start)) }
        ensures full { OnErr result (self.new.sight.seen + 1 ≡ 2 ^ 63) }
        ensures calls { self.new.calls ≡ self.old.calls }
        ensures tie { KeepsTie self.old self.new }
    {
        clock.tick(&mut self.seat)
    }

    /// Draws the end of the call that was listed last: a stamp above its point, or the last one if the clock is full.
    pub(crate) fn end(&mut self, clock: &Clock)
        requires { self.old.sight.clock ≡ clock.now }
        ensures calls { self.new.calls ≡ with_end self.new.sight.seen self.old.calls }
        ensures later { self.new.sight.seen + 1 ≢ 2 ^ 63 → self.old.sight.seen < self.new.sight.seen }
        ensures tie { KeepsTie self.old self.new }
    {
        let end = self.draw_end(clock);
        set_end(&mut self.calls, end);
    }

    /// Takes the room that a call more needs, so that none is taken while a lock is held. `AllocError` changes nothing.
    pub(crate) fn reserve(&mut self) -> Result<(), AllocError>
        ensures { self.new ≡ self.old }
    {
        take_room(&mut self.calls, &mut self.bytes)?;
        Ok(())
    }

    /// The calls that it lists, lent.
    pub(crate) fn listed(&self) -> ListedCalls<'_>
        ensures { result ≡ self.now.calls }
    {
        ListedCalls::new(self.calls.as_slice(), self.bytes.as_slice())
    }

    /// Draws a stamp, or takes the last one if the clock is full.
    fn draw_end(&mut self, clock: &Clock) -> u64
        requires { self.old.sight.clock ≡ clock.now }
        ensures end { result ≡ self.new.sight.seen }
        ensures later { result + 1 ≢ 2 ^ 63 → self.old.sight.seen < result }
        ensures calls { self.new.calls ≡ self.old.calls }
        ensures tie { KeepsTie self.old self.new }
    {
        match clock.tick(&mut self.seat) {
            Ok(end) => end,
            Err(ClockFull) => self.seat.seen(),
        }
    }

    /// Draws the point of a call, above all that it has seen and above another stamp.
    fn draw_point(&mut self, clock: &Clock, after: u64) -> Result<u64, ClockFull>
        requires clock { self.old.sight.clock ≡ clock.now }
        requires after { after < 2 ^ 63 }
        ensures point { IfOk result (λ point. (after < point) × (self.old.sight.seen < point)
            × (self.new.sight.seen ≡ point) × (point < 2 ^ 63)) }
        ensures full { OnErr result (self.new.sight.seen + 1 ≡ 2 ^ 63) }
        ensures calls { self.new.calls ≡ self.old.calls }
        ensures tie { KeepsTie self.old self.new }
    {
        self.seat.meet(after)?;
        clock.tick(&mut self.seat)
    }

    /// The last call that it lists of a lane. It takes one step.
    fn former(&self, lane: u32) -> Option<ListedRef<'_>>
        requires { lane < most_lanes }
        ensures { option_map listed_shown result ≡ former lane self.now.calls }
    {
        match self.former[lane as usize] {
            Some(place) => Some(self.listed().at(place)),
            None => None,
        }
    }
}

/// What the lock of a lane keeps: the lane with its record. Contracts see the recorded lane.
#[derive(Drop)]
pub struct LaneBook<D: PageDevice<PAGE>, const PAGE: usize> {
    alloc: Global,
    recorded: RecordedLane<Boxed<D>, PAGE>,
}

impl<D: PageDevice<PAGE>, const PAGE: usize> Model for LaneBook<D, PAGE> {
    ghost use Rattle.std.specs.Coded.{codes};
    ghost use Rattle.kset.specs.Sets.{sets_code};
    ghost use Rattle.recorded_lane.specs.Lane.{Lane};
    ghost use Rattle.shared_cache.specs.Acts.{IsBook};

    ghost Value = { Lane D };

    ghost coded = { Prim.hlevel (codes, sets_code) };

    ghost view = { λ b. b.recorded };

    ghost invariant = { λ b. IsBook b.recorded };
}

impl<D: PageDevice<PAGE>, const PAGE: usize> LaneBook<D, PAGE> {
    /// The empty book of a lane over a device. Nothing is tested again.
    pub(crate) fn new(
        alloc: Global,
        layout: &Layout,
        lane: u32,
        device: D,
    ) -> Result<LaneBook<D, PAGE>, AllocError>
        requires page_size { IsPageSize PAGE }
        requires lane { lane < layout.now.lanes }
        requires room { layout_pages layout.now ≤ D.page_count device }
        ensures { IfOk result (λ book. book ≡ record {
          store = opening layout.now device;
          lane = lane;
          calls = [];
        }) }
    {
        let boxed = Boxed::new(alloc, device)?;
        let recorded = RecordedLane::with_layout(alloc, layout, lane, boxed)?;
        Ok(LaneBook { alloc, recorded })
    }

    /// The number of its lane.
    pub fn lane(&self) -> u32
        ensures number { result ≡ self.now.lane }
        ensures below { result < self.now.store.layout.lanes }
    {
        self.recorded.lane()
    }

    /// The configuration that its lane was opened with.
    pub fn config(&self) -> Config
        ensures { HasNumbersOf self.now.store.layout result }
    {
        self.recorded.config()
    }

    /// Whether it is of the lane with this number, and of this layout.
    pub(crate) fn is_of(&self, lane: u32, layout: &Layout) -> bool
        ensures { IsTrue result ↔
            ((self.now.lane ≡ lane) × (self.now.store.layout ≡ layout.now)) }
    {
        self.recorded.lane() == lane && self.recorded.layout() == *layout
    }

    /// The point of its last call, or 0 before the first.
    fn last_point(&self) -> u64
        ensures greatest { All (λ n. n.point ≤ result) self.now.calls }
        ensures within { result < 2 ^ 63 }
    {
        self.recorded.last_point()
    }

    /// All that a call does while it holds the lock of its lane: it makes sure that the pass's former call of this lane
    /// still stands where it was recorded, draws the call's point, has the lane answer and record it, and lists it in the
    /// pass with its position and, until its end is drawn, its point for its end.
    ///
    /// A refused call is not recorded and not listed. `HistoryLost`, `HistoryFull` and `ClockFull` leave the book as it
    /// was, and so does `OutOfMemory` of a put or a removal; of a get it may come after the answer, when the pair has
    /// come to the front of memory, its prediction is one less, or its slot is hit.
    pub fn act(
        &mut self,
        clock: &Clock,
        pass: &mut Pass,
        start: u64,
        asked: Request<'_>,
    ) -> Result<ActAnswer, ActFault>
        requires clock { pass.old.sight.clock ≡ clock.now }
        requires start { start ≤ pass.old.sight.seen }
        requires own { IsOfLane self.old.store.layout self.old.lane (key_of (request_shown asked)) }
        requires fits { IsFitting PAGE (request_shown asked) }
        ensures acts { IfOk result (λ acted. IsActed D.honest D.failures D.held PAGE
            (request_shown asked.entry) start self.old pass.old acted self.new pass.new) }
        ensures refused { IfErr result (λ fault. IsUnacted D.honest D.failures D.held PAGE
            (request_shown asked.entry) self.old pass.old fault self.new pass.new) }
        ensures tie { KeepsTie pass.old pass.new }
    {
        let point = self.ready(clock, pass)?;
        let lane = self.recorded.lane();
        let position = self.recorded.len();
        take_room(&mut pass.calls, &mut pass.bytes)?;
        let stamps = Stamps {
            caller: pass.caller,
            start,
            point,
        };
        let outcome = perform(&mut self.recorded, stamps, asked)?;
        let entry = keep(&mut pass.bytes, &self.recorded.at(position));
        let listed = ListedEntry {
            lane,
            position,
            end: point,
            entry,
        };
        list(&mut pass.calls, &mut pass.former, listed);
        Ok(ActAnswer { outcome, point })
    }

    /// The point of a call, which is drawn if the pass's former call of this lane stands and the lane records one call more.
    fn ready(&self, clock: &Clock, pass: &mut Pass) -> Result<u64, ActFault>
        requires { pass.old.sight.clock ≡ clock.now }
        ensures point { IfOk result (IsReady self.now pass.old pass.new) }
        ensures refused { IfErr result (Explains self.now pass.old pass.new.sight.seen) }
        ensures calls { pass.new.calls ≡ pass.old.calls }
        ensures tie { KeepsTie pass.old pass.new }
    {
        self.check(pass)?;
        if self.recorded.len() >= MAX_CALLS {
            return Err(ActFault::HistoryFull);
        }
        match pass.draw_point(clock, self.last_point()) {
            Ok(point) => Ok(point),
            Err(ClockFull) => Err(ActFault::ClockFull),
        }
    }

    /// Whether the pass's former call of this lane stands at its position. `HistoryLost` has a copy of what stands there
    /// instead, and is `OutOfMemory` if that copy is refused.
    fn check(&self, pass: &Pass) -> Result<(), ActFault>
        ensures stands { OnOk result (Stands self.now pass.now) }
        ensures refused { IfErr result (λ fault. Explains self.now pass.now 0 fault
            × (fault ≢ ActFault.ClockFull) × (fault ≢ ActFault.HistoryFull)) }
    {
        let Some(listed) = pass.former(self.recorded.lane()) else {
            return Ok(());
        };
        let position = listed.position;
        if position >= self.recorded.len() {
            return Err(ActFault::HistoryLost {
                position,
                found: None,
            });
        }
        let recorded = self.recorded.at(position);
        if is_recorded_as(&listed.call, &recorded) {
            return Ok(());
        }
        let found = copy_of(self.alloc, &recorded)?;
        Err(ActFault::HistoryLost {
            position,
            found: Some(found),
        })
    }

    /// The calls of a lane that is over, each of which ends at its point, and its device.
    pub(crate) fn into_parts(self) -> RecordedParts<D>
        ensures { IsOver D.honest (lane_of_key self.store.layout) self.lane
            (map noted_in result.calls) result.device }
    {
        let _count = self.recorded.len();
        let RecordedParts { calls, device } = self.recorded.into_parts();
        RecordedParts {
            calls,
            device: device.into_inner(),
        }
    }
}

/// Takes the room that a call more needs. `AllocError` changes nothing.
fn take_room(calls: &mut Vec<ListedEntry>, bytes: &mut Vec<u8>) -> Result<(), AllocError>
    ensures calls { calls.new.items ≡ calls.old.items }
    ensures bytes { bytes.new.items ≡ bytes.old.items }
    ensures one { OnOk result (length calls.new.items < vec_capacity calls.new) }
    ensures most { OnOk result (length bytes.new.items + most_bytes ≤ vec_capacity bytes.new) }
{
    calls.reserve(1)?;
    bytes.reserve(MOST_BYTES)?;
    Ok(())
}

/// Keeps the bytes of a recorded call after the others, for which there is room.
fn keep(bytes: &mut Vec<u8>, call: &NotedRef<'_>) -> StoredCall
    requires key { IsKey call.now.key.now }
    requires value { IsValue (value_of (act_shown call.now.act)) }
    requires room { length bytes.old.items + most_bytes ≤ vec_capacity bytes.old }
    ensures bytes { bytes.new.items ≡ (bytes.old.items ++ call.now.key.now)
        ++ value_of (act_shown call.now.act) }
    ensures lies { LiesIn (length bytes.new.items) result }
    ensures call { noted_in (call_in bytes.new.items result) ≡ noted_shown call.now }
{
    let call = CallRef::new(call.caller, call.start, call.point, call.key, call.act);
    let entry = StoredCall::of(&call, bytes.len());
    bytes.extend_from_slice(call.key).unwrap();
    bytes.extend_from_slice(call.act.value()).unwrap();
    entry
}

/// Lists a call for which there is room, and notes its place as that of the lane's last call.
fn list(calls: &mut Vec<ListedEntry>, former: &mut [Option<usize>; MAX_LANES], call: ListedEntry)
    requires lane { call.lane < most_lanes }
    requires room { length calls.old.items < vec_capacity calls.old }
    ensures calls { calls.new.items ≡ calls.old.items ++ call ∷ [] }
    ensures former { former.new ≡ slice_set former.old call.lane (Some (length calls.old.items)) }
{
    let lane = call.lane as usize;
    former[lane] = Some(calls.len());
    calls.push_reserved(call);
}

/// Gives the last call, if there is one, this end.
#[tactic(auto, using(crate::proofs::Keeping::kept_end_set))]
fn set_end(calls: &mut Vec<ListedEntry>, end: u64)
    ensures { calls.new.items ≡ kept_with_end end calls.old.items }
{
    let count = calls.len();
    if count > 0 {
        let last = &mut calls[count - 1];
        last.end = end;
    }
}
