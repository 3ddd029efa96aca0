// A lane whose calls are recorded.
ghost use Rattle.std.specs.Prelude.{◌≡◌, ◌↔◌, ◌<◌, ◌≤◌, [], All, length, map, IfOk, OnOk, OnErr, IsErrOf, IfErr, IsTrue, slice_get, Ok, Some};
ghost use Rattle.std.specs.List.{range_with_len};
ghost use Rattle.record_pages.specs.Expiry.{timed};
ghost use Rattle.record_pages.specs.Asked.{HasNumbersOf, layout_pages};
ghost use Rattle.record_pages.specs.Bounded.{IsKey, IsValue};
ghost use Rattle.record_pages.specs.Sizes.{IsPageSize, object_size, room};
ghost use Rattle.mover.specs.Store.{opening, IsStore};
ghost use Rattle.mover.specs.Opening.{CanServe, RefusesStore};
ghost use Rattle.mover.specs.Lane.{lane_of};
ghost use Rattle.mover.specs.Laws.{IsInOrder};
ghost use Rattle.mover.specs.Calls.{StoreGets, StorePuts, StoreRemoves};
ghost use Rattle.trace_file.specs.Calls.{value_of};
ghost use Rattle.trace_file.specs.Lent.{act_shown};
ghost use Rattle.certificate_checker.specs.Acceptance.{IsAccepted};

use crate::call_record::CallRecord;
use crate::noted_ref::NotedRef;
use crate::record_fault::RecordFault;
use crate::record_put_fault::RecordPutFault;
use crate::recorded_parts::RecordedParts;
use deeds::{DeedStore, act_lent};
use key_hash::RandomSeed;
use mover::{OpenFault, Store, strikes_for_all};
use page_device::PageDevice;
use record_pages::{Answer, Config, Key, Layout, Pushed, Value, is_too_large};
use std::alloc::{AllocError, Global};
use std::marker::Model;
use trace_file::{Act, ActRef};

mod moves;
mod steps;

/// The most calls that a lane records.
pub const MAX_CALLS: usize = 16777216;

/// A lane of the cache: its store, with a record of its calls in the order in which they were done. The bytes of the
/// recorded calls lie in one place.
///
/// The record takes no memory before the first call. It is right of any device; its hits are said to be lawful only if
/// the device is honest.
#[derive(Drop)]
pub struct RecordedLane<D: PageDevice<PAGE>, const PAGE: usize> {
    store: DeedStore<D, PAGE>,
    lane: u32,
    calls: CallRecord,
}

impl<D: PageDevice<PAGE>, const PAGE: usize> Model for RecordedLane<D, PAGE> {
    ghost use Rattle.std.specs.Coded.{codes};
    ghost use Rattle.kset.specs.Sets.{sets_code};
    ghost use Rattle.recorded_lane.specs.Lane.{Lane, IsNoted};

    ghost Value = { Lane D };

    ghost coded = { Prim.hlevel (codes, sets_code) };

    ghost view = { λ a. record { store = a.store.store; lane = a.lane; calls = a.calls } };

    ghost invariant = { λ a. IsNoted (record {
      store = a.store.store;
      lane = a.lane;
      calls = a.calls;
    }) a.store.deeds };
}

impl<D: PageDevice<PAGE>, const PAGE: usize> RecordedLane<D, PAGE> {
    ghost use Rattle.recorded_lane.specs.Lane.{HasMostCalls, IsOfLane, IsRecorded, RecordsCall, act_of, last_point, noted_at};
    ghost use Rattle.recorded_lane.specs.Answering.{LeavesUnrecorded};
    ghost use Rattle.recorded_lane.specs.Points.{at_point, noted_shown};

    /// An empty lane with this number, over a device. Its refusals are those of `Store::open`, tested in the order of
    /// `OpenFault`, and the device is dropped with each.
    pub fn open(alloc: Global, config: &Config, lane: u32, device: D) -> Result<Self, OpenFault>
        requires { lane < config.now.lanes }
        ensures opening { IfOk result (λ opened. HasNumbersOf opened.store.layout config.now
            × (opened ≡ record {
              store = opening opened.store.layout device;
              lane = lane;
              calls = [];
            })) }
        ensures serves { OnOk result (CanServe PAGE config.now (D.page_count device)) }
        ensures refused { IfErr result (RefusesStore PAGE config.now (D.page_count device)) }
    {
        let layout = Store::layout_for(config, &device)?;
        let lane = Self::with_layout(alloc, &layout, lane, device)?;
        Ok(lane)
    }

    /// An empty lane of this layout with this number, over a device that has its pages, as `open` makes it; or `AllocError`,
    /// with which the device is dropped. Nothing is tested again.
    pub fn with_layout(
        alloc: Global,
        layout: &Layout,
        lane: u32,
        device: D,
    ) -> Result<Self, AllocError>
        requires page_size { IsPageSize PAGE }
        requires lane { lane < layout.now.lanes }
        requires room { layout_pages layout.now ≤ D.page_count device }
        ensures { IfOk result (λ opened. opened ≡ record {
          store = opening layout.now device;
          lane = lane;
          calls = [];
        }) }
    {
        let strikes = strikes_for_all(layout);
        let store = DeedStore::with_layout(alloc, layout, strikes, device, RandomSeed::fixed())?;
        Ok(RecordedLane {
            store,
            lane,
            calls: CallRecord::new(alloc),
        })
    }

    /// How many calls were recorded.
    pub fn len(&self) -> usize
        ensures count { result ≡ length self.now.calls }
        // What is true of every lane.
        ensures recorded { IsRecorded D.honest D.held self.now }
    {
        // What is true of its store, whose deeds are those of its calls.
        let _layout = self.store.layout();
        self.calls.len()
    }

    /// Whether no call was recorded.
    pub fn is_empty(&self) -> bool
        ensures { IsTrue result ↔ (self.now.calls ≡ []) }
    {
        self.calls.len() == 0
    }

    /// The number of the lane.
    pub fn lane(&self) -> u32
        ensures number { result ≡ self.now.lane }
        ensures below { result < self.now.store.layout.lanes }
    {
        self.lane
    }

    /// The numbers that the lane was opened with.
    pub fn layout(&self) -> Layout
        ensures layout { result ≡ self.now.store.layout }
        // What is true of every store.
        ensures kept { IsStore PAGE D.page_count D.honest D.held self.now.store }
        ensures order { IsTrue (D.honest self.now.store.device) →
            IsInOrder (lane_of D.held self.now.store) }
    {
        self.store.layout()
    }

    /// The configuration that the lane was opened with.
    pub fn config(&self) -> Config
        ensures { HasNumbersOf self.now.store.layout result }
    {
        let layout = self.store.layout();
        Config {
            lanes: layout.lanes,
            sets: layout.sets,
            memory: layout.memory,
            segments: layout.segments,
            segment_pages: layout.segment_pages,
            entries: layout.entries,
            threshold: layout.threshold,
            admit: layout.admit,
        }
    }

    /// The call that was recorded at a position, counted from 0, lent.
    pub fn at(&self, position: usize) -> NotedRef<'_>
        requires { position < length self.now.calls }
        ensures call { slice_get self.now.calls position ≡ Some (noted_shown result) }
        ensures key { IsKey result.key.now }
        ensures value { IsValue (value_of (act_shown result.act)) }
    {
        self.calls.at(position)
    }

    /// The point of the last call, or 0 before the first.
    pub fn last_point(&self) -> u64
        ensures value { result ≡ last_point self.now.calls }
        ensures greatest { All (λ n. n.point ≤ result) self.now.calls }
    {
        let count = self.calls.len();
        if count == 0 {
            return 0;
        }
        self.calls.at(count - 1).point
    }

    /// Answers a get by the store, and records it. A value that has expired at the moment is a miss. The moment is the
    /// caller's: it may go backwards, and what is promised of the answer speaks of this one.
    ///
    /// `HistoryFull` comes at `MAX_CALLS` calls, and changes nothing. `OutOfMemory` records nothing, and leaves the store
    /// as it was, or as the get left it that could not be recorded: then the key's pair has come to the front of memory,
    /// or its prediction is one less, or its slot is hit.
    pub fn get(
        &mut self,
        caller: u16,
        start: u64,
        point: u64,
        key: &Key,
        moment: u64,
    ) -> Result<Answer, RecordFault>
        requires start { start < point }
        requires rises { All (λ n. n.point < point) self.old.calls }
        requires own { IsOfLane self.old.store.layout self.old.lane key.now }
        ensures recorded { IfOk result (λ answer. RecordsCall self.old
            (noted_at caller start point key.now (act_of moment answer)) self.new) }
        ensures gets { IfOk result (λ answer. StoreGets PAGE D.honest D.failures D.held key.now
            moment self.old.store (Ok answer) self.new.store) }
        // When it is refused, and what that leaves.
        ensures full { IsErrOf result RecordFault.HistoryFull ↔ HasMostCalls self.old }
        ensures full_keeps { IsErrOf result RecordFault.HistoryFull → self.new ≡ self.old }
        ensures refused { OnErr result (LeavesUnrecorded PAGE D.honest D.failures D.held key.now
            moment self.old self.new) }
    {
        if self.calls.len() >= MAX_CALLS {
            return Err(RecordFault::HistoryFull);
        }
        let answer = self.store.get(key, moment)?;
        self.calls
            .push(caller, start, point, key, act_lent(&answer, moment))?;
        self.store.note_got(key, moment, &answer);
        Ok(answer)
    }

    /// Puts a value into the store, where it expires at the moment `expires`, or never if that is `NEVER`, and records
    /// it. No call of the device is made.
    ///
    /// A refused put leaves the lane as it was, so an older value of the key stays: `TooLarge` if the object does not
    /// fit on a page, else `HistoryFull` at `MAX_CALLS` calls, else `OutOfMemory`.
    ///
    /// Its head is long: it takes one by one what is recorded of a call and what a store is given, as users of the lane have them.
    pub fn put(
        &mut self,
        caller: u16,
        start: u64,
        point: u64,
        key: Key,
        value: Value,
        word: u32,
        expires: u64,
    ) -> Result<Pushed, RecordPutFault>
        requires start { start < point }
        requires rises { All (λ n. n.point < point) self.old.calls }
        requires own { IsOfLane self.old.store.layout self.old.lane key }
        ensures recorded { OnOk result (RecordsCall self.old
            (noted_at caller start point key (Act.Put value expires)) self.new) }
        ensures puts { IfOk result (λ pushed. StorePuts PAGE D.held
            (record { key = key; value = timed value expires }) word self.old.store (Ok pushed)
            self.new.store) }
        // When it is refused, and what that leaves.
        ensures large { IsErrOf result RecordPutFault.TooLarge ↔ (room PAGE < object_size key value) }
        ensures full { IsErrOf result RecordPutFault.HistoryFull
            ↔ ((object_size key value ≤ room PAGE) × HasMostCalls self.old) }
        ensures err { OnErr result (self.new ≡ self.old) }
    {
        if is_too_large::<PAGE>(&key, &value) {
            return Err(RecordPutFault::TooLarge);
        }
        if self.calls.len() >= MAX_CALLS {
            return Err(RecordPutFault::HistoryFull);
        }
        let put = ActRef::Put(value.bytes(), expires);
        let Ok(()) = self.calls.push(caller, start, point, &key, put) else {
            return Err(RecordPutFault::OutOfMemory);
        };
        let Ok(pushed) = self.store.put(key, value, word, expires) else {
            self.calls.drop_last();
            return Err(RecordPutFault::OutOfMemory);
        };
        Ok(pushed)
    }

    /// Takes the key's pair out of the store, and records the removal. No call of the device is made.
    ///
    /// A refused removal leaves the lane as it was, so a value of the key stays: `HistoryFull` at `MAX_CALLS` calls, else
    /// `OutOfMemory`.
    pub fn remove(
        &mut self,
        caller: u16,
        start: u64,
        point: u64,
        key: &Key,
    ) -> Result<(), RecordFault>
        requires start { start < point }
        requires rises { All (λ n. n.point < point) self.old.calls }
        requires own { IsOfLane self.old.store.layout self.old.lane key.now }
        ensures recorded { OnOk result (RecordsCall self.old
            (noted_at caller start point key.now Act.Remove) self.new) }
        ensures removes { OnOk result (StoreRemoves D.held key.now self.old.store self.new.store) }
        // When it is refused, and what that leaves.
        ensures full { IsErrOf result RecordFault.HistoryFull ↔ HasMostCalls self.old }
        ensures err { OnErr result (self.new ≡ self.old) }
    {
        if self.calls.len() >= MAX_CALLS {
            return Err(RecordFault::HistoryFull);
        }
        self.calls.push(caller, start, point, key, ActRef::Remove)?;
        self.store.remove(key.bytes());
        Ok(())
    }

    /// The recorded calls as a history, in which each call ends at its point, and the device, as it is now. If the
    /// device is honest the history is accepted with the positions 0, 1, 2 and so on for its certificate. It takes no
    /// memory; what memory held is gone.
    pub fn into_parts(self) -> RecordedParts<D>
        ensures calls { result.calls ≡ map at_point self.calls }
        ensures device { result.device ≡ self.store.device }
        ensures accepted { IsTrue (D.honest self.store.device) →
            IsAccepted result.calls (range_with_len 0 (length self.calls)) }
    {
        let _layout = self.store.layout();
        RecordedParts {
            calls: self.calls.into_history(),
            device: self.store.into_device(),
        }
    }
}
