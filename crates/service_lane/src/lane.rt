// A lane that serves.
ghost use Rattle.std.specs.Prelude.{◌≡◌, ◌≤◌, [], length, None, IfOk, OnOk, IfErr};
ghost use Rattle.klog.specs.Usage.{usage_of};
ghost use Rattle.record_pages.specs.Asked.{HasNumbersOf, layout_pages};
ghost use Rattle.record_pages.specs.Sizes.{IsPageSize};
ghost use Rattle.mover.specs.Opening.{CanServe};

use crate::copy_store::CopyStore;
use crate::counts::Counts;
use crate::open_lane_fault::OpenLaneFault;
use crate::slots::Slots;
use cache_sizes::strikes_of;
use key_hash::RandomSeed;
use klog::LogUsage;
use mover::{OpenFault, Store};
use page_device::PageDevice;
use record_pages::{Config, Layout};
use std::alloc::{AllocError, Global};
use std::marker::Model;

mod get;
mod put;
mod steps;
mod tend;

/// A lane of a cache that serves: its store, its counters and its slots for leases. Nothing is recorded, so it may serve for
/// years: what it takes of memory is what its store holds, and 8 bytes a slot.
///
/// What it promises is said of the list of all that it was asked and answered since it was opened, its deeds, which proofs alone
/// see: a hit is its key's latest value in that list not since removed, and live at the moment that the get brought.
#[derive(Drop)]
pub struct ServiceLane<D: PageDevice<PAGE>, const PAGE: usize> {
    asked: CopyStore<D, PAGE>,
    slots: Slots,
    counts: Counts,
}

impl<D: PageDevice<PAGE>, const PAGE: usize> Model for ServiceLane<D, PAGE> {
    ghost use Rattle.std.specs.Coded.{codes};
    ghost use Rattle.kset.specs.Sets.{sets_code};
    ghost use Rattle.service_lane.specs.Counters.{no_counts};
    ghost use Rattle.service_lane.specs.Leases.{AreCounted, no_writes};
    ghost use Rattle.service_lane.specs.Serving.{Serving};

    ghost Value = { Serving D };

    ghost coded = { Prim.hlevel (codes, sets_code) };

    ghost view = { λ l. record {
      store = l.asked.store;
      deeds = l.asked.deeds;
      copies = l.asked.copies;
      slots = l.slots;
      counts = l.counts;
    } };

    ghost invariant = { λ l. AreCounted l.asked.deeds l.slots };
}

impl<D: PageDevice<PAGE>, const PAGE: usize> ServiceLane<D, PAGE> {
    ghost use Rattle.service_lane.specs.Asked.{IsServed};
    ghost use Rattle.service_lane.specs.Counters.{no_counts};
    ghost use Rattle.service_lane.specs.Leases.{AreCounted, no_writes};
    ghost use Rattle.service_lane.specs.Copies.{AreCopies};
    ghost use Rattle.service_lane.specs.Serving.{asked_of, opening_to_serve, OpensServing, RefusesLane};

    /// An empty lane with the number 0 and this many slots for leases, over a device. Its refusals are tested in the order of
    /// `OpenLaneFault`, those of the store in that of `Store::open`, and the device is dropped with each. Its sets have room
    /// for as many strikes together as `cache_sizes::strikes_of` says; one for which there is none forgets its set.
    ///
    /// The seed is that of the table of the objects in memory, and that by which keys have their slots. Draw it at random if
    /// strangers pick keys: anyone who knows it can pick keys that collide there.
    pub fn open(
        alloc: Global,
        config: &Config,
        lease_slots: u32,
        device: D,
        seed: RandomSeed,
    ) -> Result<Self, OpenLaneFault>
        ensures opening { IfOk result (λ opened. HasNumbersOf opened.store.layout config.now
            × (opened ≡ record {
              store = opening_to_serve opened.store.layout device;
              deeds = [];
              copies = None;
              slots = no_writes 0 seed lease_slots;
              counts = no_counts;
            })) }
        ensures serves { OnOk result
            ((1 ≤ lease_slots) × CanServe PAGE config.now (D.page_count device)) }
        ensures refused { IfErr result
            (RefusesLane PAGE config.now lease_slots (D.page_count device)) }
    {
        if lease_slots == 0 {
            return Err(OpenLaneFault::NoLeaseSlots);
        }
        let layout = Store::layout_for(config, &device)?;
        let Ok(lane) = Self::with_layout(alloc, &layout, lease_slots, 0, 0, device, seed) else {
            return Err(OpenLaneFault::Store(OpenFault::OutOfMemory));
        };
        Ok(lane)
    }

    /// An empty lane of this layout with so many slots for leases, over a device that has its pages; or `AllocError`, with which
    /// the device is dropped. Nothing is tested again. The number tells its leases from those of other lanes.
    ///
    /// If `bring_back` is 0 it is as `open` makes it. If not, objects come back into memory: of so many hits on flash one has its
    /// object copied. Of each four objects that the layout has in memory three are then copies. One that is pushed out enters
    /// the log, without admission, if flash has it no more; else it is dropped.
    pub fn with_layout(
        alloc: Global,
        layout: &Layout,
        lease_slots: u32,
        bring_back: u32,
        number: u32,
        device: D,
        seed: RandomSeed,
    ) -> Result<Self, AllocError>
        requires page_size { IsPageSize PAGE }
        requires slots { 1 ≤ lease_slots }
        requires room { layout_pages layout.now ≤ D.page_count device }
        ensures { IfOk result (OpensServing layout.now lease_slots bring_back number seed device) }
    {
        let slots = Slots::open(alloc, number, seed, lease_slots)?;
        let asked = open_asked(alloc, layout, bring_back, device, seed)?;
        Ok(ServiceLane {
            asked,
            slots,
            counts: Counts::none(),
        })
    }

    /// Counts of what the lane has done since it was opened.
    pub fn counts(&self) -> Counts
        ensures { result ≡ self.now.counts }
    {
        self.counts
    }

    /// How full its log is.
    pub fn log_usage(&self) -> LogUsage
        ensures { result ≡ usage_of self.now.store.log }
    {
        self.asked.log_usage()
    }

    /// How many objects are in memory, copies of those on flash aside.
    pub fn memory_len(&self) -> usize
        ensures { result ≡ length self.now.store.memory.pairs }
    {
        self.asked.memory_len()
    }

    /// The numbers that the lane was opened with.
    pub fn layout(&self) -> Layout
        ensures layout { result ≡ self.now.store.layout }
        // What is true of every lane.
        ensures served { IsServed D.honest D.held (record {
          store = self.now.store;
          deeds = self.now.deeds;
        }) }
        ensures copied { AreCopies D.honest (asked_of self.now) }
        ensures counted { AreCounted self.now.deeds self.now.slots }
        ensures slots { 1 ≤ length self.now.slots.writes }
    {
        let _some = self.slots.count();
        self.asked.layout()
    }

    /// The device.
    pub fn device(&self) -> &D
        ensures { result.now ≡ self.now.store.device }
    {
        self.asked.device()
    }

    /// The device, as it is now. What memory held is gone.
    pub fn into_device(self) -> D
        ensures { result ≡ self.store.device }
    {
        self.asked.into_device()
    }
}

ghost use Rattle.std.specs.Prelude.{◌<◌};
ghost use Rattle.service_lane.specs.Copies.{copies_for, copies_of, numbers_without};
ghost use Rattle.service_lane.specs.Serving.{opening_to_serve};

use crate::copies::open_copies;

// An empty store of a lane of this layout, which brings objects back of one in so many hits on flash.
fn open_asked<D: PageDevice<PAGE>, const PAGE: usize>(
    alloc: Global,
    layout: &Layout,
    bring_back: u32,
    device: D,
    seed: RandomSeed,
) -> Result<CopyStore<D, PAGE>, AllocError>
    requires page_size { IsPageSize PAGE }
    requires room { layout_pages layout.now ≤ D.page_count device }
    ensures numbers { IfOk result (λ opened. HasNumbersOf opened.store.layout
        (numbers_without layout.now (copies_of bring_back layout.now.memory))) }
    ensures opened { IfOk result (λ opened. opened ≡ record {
      store = opening_to_serve opened.store.layout device;
      deeds = [];
      copies = copies_for bring_back (copies_of bring_back layout.now.memory);
    }) }
{
    let objects = copies_of(bring_back, layout.memory);
    let copies = open_copies(alloc, bring_back, objects, seed)?;
    let parted = without_copies(layout, objects);
    let strikes = strikes_of(layout.sets);
    let asked = CopyStore::with_layout(alloc, &parted, strikes, copies, device, seed)?;
    Ok(asked)
}

// How many objects in memory are copies, of so many.
fn copies_of(bring_back: u32, objects: u32) -> u32
    requires { 1 ≤ objects }
    ensures share { result ≡ copies_of bring_back objects }
    ensures few { result < objects }
{
    if bring_back == 0 {
        return 0;
    }
    objects / 4 * 3
}

// The layout with so many objects less in memory.
fn without_copies(layout: &Layout, copies: u32) -> Layout
    requires { copies < layout.now.memory }
    ensures { HasNumbersOf result (numbers_without layout.now copies) }
{
    Layout {
        lanes: layout.lanes,
        sets: layout.sets,
        memory: layout.memory - copies,
        segments: layout.segments,
        segment_pages: layout.segment_pages,
        entries: layout.entries,
        threshold: layout.threshold,
        admit: layout.admit,
    }
}
