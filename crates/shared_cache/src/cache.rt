// A cache that threads share.
ghost use Rattle.std.specs.Prelude.{◌≡◌, ◌≢◌, ◌↔◌, ◌+◌, ◌^◌, ◌<◌, ◌≤◌, ℕ, All, Err, IfErr, IfOk, IsTrue, OnOk, OnErr, IsErrOf, length, slice_index_or};
ghost use Rattle.record_pages.specs.Asked.{HasNumbersOf, layout_pages};
ghost use Rattle.record_pages.specs.Sizes.{IsPageSize, object_size, room};
ghost use Rattle.certificate_checker.specs.Acceptance.{IsAccepted};
ghost use Rattle.history_recorder.specs.declared.operation.Operation.{Operation};
ghost use Rattle.shared_cache.specs.declared.response.Response.{Response};
ghost use Rattle.shared_cache.specs.Acts.{IsFitting, Suits, request_shown};
ghost use Rattle.shared_cache.specs.Blames.{Blames};
ghost use Rattle.shared_cache.specs.Caches.{CanShare, ExplainsOpening, IsMade, KeepsTie, fault_in};
ghost use Rattle.shared_cache.specs.Finished.{IsFinished, IsLeastMissing};
ghost use Rattle.shared_cache.specs.Passes.{Ticket, new_ticket};
ghost use Rattle.shared_cache.specs.Stamps.{new_sight};

use crate::act_fault::ActFault;
use crate::books::{LaneBook, Pass};
use crate::call_fault::CallFault;
use crate::claims::missing;
use crate::clock::Clock;
use crate::ending::{ended_lanes, take_apart};
use crate::finish_fault::FinishFault;
use crate::finished::Finished;
use crate::open_cache_fault::OpenCacheFault;
use crate::opening::{books_of, passes_of};
use crate::request::Request;
use crate::response::Response;
use crossbeam_utils::CachePadded;
use history_recorder::lay_out;
use page_device::{PageDevice, is_one_too_small};
use policy_laws::EvictionPolicy;
use record_pages::{Answer, Config, Key, Layout, Pushed, Value, is_too_large};
use set_hash::place;
use std::alloc::{AllocError, Global};
use std::marker::Model;
use std::sync::{Mutex, Wait};
use std::thread::Threads;

mod rounds;

/// A cache that threads share: its lanes, each under a lock of its own, their clock, and the policy of their moves.
#[derive(Drop)]
pub struct SharedCache<D: PageDevice<PAGE>, P: EvictionPolicy + Drop, const PAGE: usize> {
    alloc: Global,
    layout: Layout,
    callers: u16,
    policy: P,
    clock: Clock,
    // Each book stands on cache lines of its own, apart from its lock and the other books.
    books: Vec<Mutex<CachePadded<LaneBook<D, PAGE>>>>,
}

impl<D: PageDevice<PAGE>, P: EvictionPolicy + Drop, const PAGE: usize> Model
    for SharedCache<D, P, PAGE> {
    ghost use Rattle.std.specs.Prelude.{◌≡◌, length};
    ghost use Rattle.shared_cache.specs.Caches.{Cache};

    ghost Value = { Cache };

    ghost view = { λ c. record { clock = c.clock; layout = c.layout; callers = c.callers } };

    ghost invariant = { λ c. length c.books.items ≡ c.layout.lanes };
}

impl<D: PageDevice<PAGE>, P: EvictionPolicy + Drop, const PAGE: usize> SharedCache<D, P, PAGE> {
    /// A cache of this configuration with empty lanes, one over each device, whose moves go by this policy, and a pass for
    /// each caller, numbered from 0. Its refusals are tested in the order of `OpenCacheFault`; the policy is dropped with
    /// each.
    pub fn open(
        alloc: Global,
        config: &Config,
        devices: Vec<D>,
        policy: P,
        callers: u16,
    ) -> Result<(Self, Vec<Pass>), OpenCacheFault>
        ensures numbers { IfOk result (λ opened. HasNumbersOf opened.0.layout config.now
            × (opened.0.callers ≡ callers)) }
        ensures many { IfOk result (λ opened. length opened.1.items ≡ callers) }
        ensures passes { IfOk result (λ opened. (caller : ℕ) (d : Ticket) → caller < callers →
            slice_index_or opened.1.items caller d
            ≡ new_ticket caller (new_sight opened.0.clock)) }
        ensures ties { IfOk result (λ opened.
            All (λ p. p.sight.clock ≡ opened.0.clock) opened.1.items) }
        ensures serves { OnOk result (CanShare PAGE D.page_count config.now devices.items callers) }
        ensures refused { IfErr result
            (ExplainsOpening PAGE D.page_count config.now devices.items callers) }
    {
        let layout = match config.check() {
            Ok(layout) => layout,
            Err(fault) => return Err(OpenCacheFault::ConfigFault(fault.field)),
        };
        if callers == 0 {
            return Err(OpenCacheFault::NoCallers);
        }
        if devices.len() != layout.lanes as usize {
            return Err(OpenCacheFault::DeviceCount);
        }
        if PAGE < 256 || PAGE > 4096 {
            return Err(OpenCacheFault::WrongPage);
        }
        if is_one_too_small(layout.pages(), devices.as_slice()) {
            return Err(OpenCacheFault::DeviceTooSmall);
        }
        let Ok(opened) = Self::with_layout(alloc, &layout, devices, policy, callers) else {
            return Err(OpenCacheFault::OutOfMemory);
        };
        Ok(opened)
    }

    /// A cache of this layout and its passes, as `open` makes them, over a device a lane with the layout's pages; or
    /// `AllocError`. Nothing is tested again.
    pub fn with_layout(
        alloc: Global,
        layout: &Layout,
        devices: Vec<D>,
        policy: P,
        callers: u16,
    ) -> Result<(Self, Vec<Pass>), AllocError>
        requires page_size { IsPageSize PAGE }
        requires callers { 0 < callers }
        requires devices { length devices.items ≡ layout.now.lanes }
        requires room { All (λ d. layout_pages layout.now ≤ D.page_count d) devices.items }
        ensures numbers { IfOk result (λ opened. (opened.0.layout ≡ layout.now)
            × (opened.0.callers ≡ callers)) }
        ensures many { IfOk result (λ opened. length opened.1.items ≡ callers) }
        ensures passes { IfOk result (λ opened. (caller : ℕ) (d : Ticket) → caller < callers →
            slice_index_or opened.1.items caller d
            ≡ new_ticket caller (new_sight opened.0.clock)) }
        ensures ties { IfOk result (λ opened.
            All (λ p. p.sight.clock ≡ opened.0.clock) opened.1.items) }
    {
        let (clock, seats) = Clock::new(alloc, callers)?;
        let passes = passes_of(alloc, &clock, callers, seats)?;
        let books = books_of(alloc, layout, devices)?;
        let cache = SharedCache {
            alloc,
            layout: *layout,
            callers,
            policy,
            clock,
            books,
        };
        Ok((cache, passes))
    }

    /// Looks a key up. A value that has expired at the moment is a miss. The refusals are those of `CallFault` but
    /// `TooLarge`.
    ///
    /// The moment is the caller's, in the unit in which puts say when they expire. It may go backwards, and differ from
    /// caller to caller: what is promised of an answer speaks of the moment that its get brought. So let all callers read
    /// one clock.
    ///
    /// A refused get is not recorded. If memory was refused after the answer, the key's pair has come to the front
    /// of memory, or its prediction is one less, or its slot is hit.
    pub fn get<R: Wait>(
        &self,
        rt: &R,
        pass: &mut Pass,
        key: &Key,
        moment: u64,
    ) -> Result<Answer, CallFault>
        requires { pass.old.sight.clock ≡ self.now.clock }
        ensures made { IfOk result (λ answer.
            IsMade self.now.layout (Operation.Get key.now moment) pass.old (Response.Got answer) pass.new) }
        ensures refused { OnErr result (pass.new.calls ≡ pass.old.calls) }
        ensures full { result ≡ Err CallFault.ClockFull → pass.new.sight.seen + 1 ≡ 2 ^ 63 }
        ensures small { result ≢ Err CallFault.TooLarge }
        ensures tie { KeepsTie pass.old pass.new }
    {
        match self.call(rt, pass, Request::Get(key, moment)) {
            Ok(Response::Got(answer)) => Ok(answer),
            // A call gives what its kind of request asks for.
            Ok(_) => unreachable!(),
            Err(fault) => Err(fault),
        }
    }

    /// Puts a value, which expires at the moment `expires`, or never if that is `NEVER`. A refused put leaves the lane
    /// as it was, so an older value of the key stays.
    pub fn put<R: Wait>(
        &self,
        rt: &R,
        pass: &mut Pass,
        key: Key,
        value: Value,
        word: u32,
        expires: u64,
    ) -> Result<Pushed, CallFault>
        requires { pass.old.sight.clock ≡ self.now.clock }
        ensures made { IfOk result (λ pushed. IsMade self.now.layout
            (Operation.Put key value word expires) pass.old (Response.Stored pushed) pass.new) }
        ensures large { IsErrOf result CallFault.TooLarge ↔ (room PAGE < object_size key value) }
        ensures refused { OnErr result (pass.new.calls ≡ pass.old.calls) }
        ensures full { result ≡ Err CallFault.ClockFull → pass.new.sight.seen + 1 ≡ 2 ^ 63 }
        ensures tie { KeepsTie pass.old pass.new }
    {
        if is_too_large::<PAGE>(&key, &value) {
            return Err(CallFault::TooLarge);
        }
        match self.call(rt, pass, Request::Put(key, value, word, expires)) {
            Ok(Response::Stored(pushed)) => Ok(pushed),
            // As of a get.
            Ok(_) => unreachable!(),
            Err(fault) => Err(fault),
        }
    }

    /// Removes a key. A refused removal leaves the lane as it was. The refusals are those of `CallFault` but `TooLarge`.
    pub fn remove<R: Wait>(&self, rt: &R, pass: &mut Pass, key: &Key) -> Result<(), CallFault>
        requires { pass.old.sight.clock ≡ self.now.clock }
        ensures made { OnOk result (IsMade self.now.layout
            (Operation.Remove key.now) pass.old Response.Removed pass.new) }
        ensures refused { OnErr result (pass.new.calls ≡ pass.old.calls) }
        ensures full { result ≡ Err CallFault.ClockFull → pass.new.sight.seen + 1 ≡ 2 ^ 63 }
        ensures small { result ≢ Err CallFault.TooLarge }
        ensures tie { KeepsTie pass.old pass.new }
    {
        match self.call(rt, pass, Request::Remove(key)) {
            Ok(Response::Removed) => Ok(()),
            // As of a get.
            Ok(_) => unreachable!(),
            Err(fault) => Err(fault),
        }
    }

    /// Ends the cache: lays its lanes' calls out as one history, with the ends that the passes list and the certificate
    /// that lists the calls by point and lane, and hands the devices back.
    ///
    /// The lanes are gone through side by side, in a thread each if one can be made. If the devices are honest the
    /// checker accepts the pair. The refusals are those of `FinishFault`, in its order.
    pub fn finish<R: Threads + Sync>(
        self,
        rt: &R,
        passes: Vec<Pass>,
    ) -> Result<Finished<D>, FinishFault>
        ensures missing { (caller : ℕ) → (result ≡ Err (FinishFault.MissingPass caller))
            ↔ IsLeastMissing self.callers passes.items caller }
        ensures finished { IfOk result (λ finished.
            IsFinished self.layout.lanes passes.items finished.history finished.certificate) }
        ensures accepted { IfOk result (λ finished. All (λ d. IsTrue (D.honest d)) finished.devices.items
            → IsAccepted finished.history finished.certificate) }
        ensures devices { IfOk result (λ finished. length finished.devices.items ≡ self.layout.lanes) }
        ensures refused { IfErr result (Blames self.callers self.layout.lanes passes.items) }
    {
        let SharedCache {
            alloc,
            layout,
            callers,
            policy: _,
            clock: _,
            books,
        } = self;
        if let Some(caller) = missing(callers, passes.as_slice()) {
            return Err(FinishFault::MissingPass { caller });
        }
        let (left, devices) = take_apart(alloc, &layout, books)?;
        let lanes = ended_lanes(rt, alloc, left, passes)?;
        let Ok((history, certificate)) = lay_out(alloc, lanes) else {
            return Err(FinishFault::OutOfMemory);
        };
        Ok(Finished {
            history,
            certificate,
            devices,
        })
    }

    /// A whole call: its start, one act in one hold of the lock of its lane, and its end.
    fn call<R: Wait>(
        &self,
        rt: &R,
        pass: &mut Pass,
        asked: Request<'_>,
    ) -> Result<Response, CallFault>
        requires clock { pass.old.sight.clock ≡ self.now.clock }
        requires fits { IsFitting PAGE (request_shown asked) }
        ensures made { IfOk result (λ outcome.
            IsMade self.now.layout (request_shown asked.entry) pass.old outcome pass.new) }
        ensures suits { IfOk result (Suits (request_shown asked.entry)) }
        ensures refused { OnErr result (pass.new.calls ≡ pass.old.calls) }
        ensures full { result ≡ Err CallFault.ClockFull → pass.new.sight.seen + 1 ≡ 2 ^ 63 }
        ensures small { result ≢ Err CallFault.TooLarge }
        ensures tie { KeepsTie pass.old pass.new }
    {
        let Ok(()) = pass.reserve() else {
            return Err(CallFault::OutOfMemory);
        };
        let Ok(start) = pass.start(&self.clock) else {
            return Err(CallFault::ClockFull);
        };
        let lane = place(&self.layout, asked.key().bytes()).lane;
        let mut guard = self.books[lane as usize].lock(rt);
        let book = &mut **guard;
        if !book.is_of(lane, &self.layout) {
            return Err(CallFault::WrongLane);
        }
        match book.act(&self.clock, pass, start, asked) {
            Ok(acted) => {
                drop(guard);
                pass.end(&self.clock);
                Ok(acted.outcome)
            }
            Err(fault) => Err(refused(fault, lane)),
        }
    }
}

/// The refusal of a call whose act was refused in this lane.
fn refused(fault: ActFault, lane: u32) -> CallFault
    ensures { result ≡ fault_in lane fault }
{
    match fault {
        ActFault::OutOfMemory => CallFault::OutOfMemory,
        ActFault::ClockFull => CallFault::ClockFull,
        ActFault::HistoryFull => CallFault::HistoryFull,
        ActFault::HistoryLost { position, found } => CallFault::HistoryLost {
            lane,
            position,
            found,
        },
    }
}
