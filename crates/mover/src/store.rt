// The store of a lane.
ghost use Rattle.std.specs.Prelude.{◌≡◌, ◌≤◌, ◌*◌, IfOk, OnOk, IfErr, length};
ghost use Rattle.record_pages.specs.Asked.{HasNumbersOf};
ghost use Rattle.klog.specs.Usage.{usage_of};

use crate::flights::Flights;
use crate::open_fault::OpenFault;
use key_hash::RandomSeed;
use klog::{KLog, LogUsage};
use kset::KSet;
use memory_cache::MemoryCache;
use page_device::PageDevice;
use record_pages::{Config, Layout, ValueBuffer};
use std::alloc::{AllocError, Global};
use std::marker::Model;

mod abort;
mod begin;
mod commit;
mod flush;
mod gather;
mod get;
mod locate;
mod move_whole;
mod put;
mod put_back;
mod remove;

/// The store of a lane: the objects in memory, the log and the sets, over one device. Up to 8 moves of different sets
/// are in flight at once.
#[derive(Drop)]
pub struct Store<D: PageDevice<PAGE>, const PAGE: usize> {
    alloc: Global,
    layout: Layout,
    device: D,
    memory: MemoryCache,
    log: KLog<PAGE>,
    sets: KSet<PAGE>,
    flights: Flights,
    moves: u64,
    // for the value of a get below memory, until it is copied out
    found: ValueBuffer,
}

impl<D: PageDevice<PAGE>, const PAGE: usize> Model for Store<D, PAGE> {
    ghost use Rattle.std.specs.Coded.{codes};
    ghost use Rattle.kset.specs.Sets.{sets_code};
    ghost use Rattle.mover.specs.Store.{StoreState, IsStore};

    ghost Value = { StoreState D };

    ghost coded = { Prim.hlevel (codes, sets_code) };

    ghost view = { λ s. record {
      layout = s.layout;
      device = s.device;
      memory = s.memory;
      log = s.log;
      sets = s.sets;
      flights = s.flights;
      moves = s.moves;
    } };

    ghost invariant = { λ s. IsStore PAGE D.page_count D.honest D.held (record {
      layout = s.layout;
      device = s.device;
      memory = s.memory;
      log = s.log;
      sets = s.sets;
      flights = s.flights;
      moves = s.moves;
    }) };
}

impl<D: PageDevice<PAGE>, const PAGE: usize> Store<D, PAGE> {
    ghost use Rattle.std.specs.Prelude.{IsTrue, ◌≢◌, ◌≤◌, Err};
    ghost use Rattle.record_pages.specs.Asked.{layout_pages};
    ghost use Rattle.record_pages.specs.Sizes.{IsPageSize};
    ghost use Rattle.mover.specs.declared.open_fault.OpenFault.{OpenFault};
    ghost use Rattle.mover.specs.Store.{opening, opening_with, IsStore};
    ghost use Rattle.mover.specs.Opening.{CanServe, RefusesStore};
    ghost use Rattle.mover.specs.Lane.{lane_of};
    ghost use Rattle.mover.specs.Laws.{IsInOrder};

    /// An empty store of this configuration over a device. Its refusals are tested in the order of `OpenFault`, and the
    /// device is dropped with each. The table of its memory hashes by a seed that is the same in every run.
    pub fn open(alloc: Global, config: &Config, device: D) -> Result<Self, OpenFault>
        ensures opening { IfOk result (λ s. HasNumbersOf s.layout config.now
            × (s ≡ opening s.layout device)) }
        ensures serves { OnOk result (CanServe PAGE config.now (D.page_count device)) }
        ensures refused { IfErr result (RefusesStore PAGE config.now (D.page_count device)) }
    {
        let layout = Self::layout_for(config, &device)?;
        let strikes = strikes_for_all(&layout);
        let store = Self::with_layout(alloc, &layout, strikes, device, RandomSeed::fixed())?;
        Ok(store)
    }

    /// The layout of this configuration, if a store of it can be opened over the device, memory aside; otherwise
    /// the first refusal in the order of `OpenFault`, which is never `OutOfMemory`.
    pub fn layout_for(config: &Config, device: &D) -> Result<Layout, OpenFault>
        ensures numbers { IfOk result (λ layout. HasNumbersOf layout config.now) }
        ensures room { IfOk result (λ layout. layout_pages layout ≤ D.page_count device.now) }
        ensures serves { OnOk result (CanServe PAGE config.now (D.page_count device.now)) }
        ensures refused { IfErr result (RefusesStore PAGE config.now (D.page_count device.now)) }
        ensures memory { result ≢ Err OpenFault.OutOfMemory }
    {
        let layout = config.check()?;
        if PAGE < 256 || PAGE > 4096 {
            return Err(OpenFault::WrongPage);
        }
        if device.pages() < layout.pages() {
            return Err(OpenFault::DeviceTooSmall);
        }
        Ok(layout)
    }

    /// An empty store of this layout over a device that has its pages, or `AllocError`, with which the device is
    /// dropped. Nothing is tested again. All its sets together have room for this many strikes; one for which there is none
    /// forgets its set. The table of its memory hashes by the seed: anyone who does not know it cannot pick keys that
    /// collide there.
    pub fn with_layout(
        alloc: Global,
        layout: &Layout,
        strikes: u32,
        device: D,
        seed: RandomSeed,
    ) -> Result<Self, AllocError>
        requires page_size { IsPageSize PAGE }
        requires strikes { strikes ≤ 524288 }
        requires room { layout_pages layout.now ≤ D.page_count device }
        ensures { IfOk result (λ s. s ≡ opening_with strikes layout.now device) }
    {
        let memory = MemoryCache::with_seed(alloc, layout.memory, seed)?;
        let log = KLog::open(alloc, layout)?;
        let sets = KSet::open(alloc, layout, strikes)?;
        let flights = Flights::open(alloc)?;
        Ok(Store {
            alloc,
            layout: *layout,
            device,
            memory,
            log,
            sets,
            flights,
            moves: 0,
            found: ValueBuffer::empty(),
        })
    }

    /// The numbers that the store was opened with.
    pub fn layout(&self) -> Layout
        ensures layout { result ≡ self.now.layout }
        // What is true of every store.
        ensures kept { IsStore PAGE D.page_count D.honest D.held self.now }
        ensures order { IsTrue (D.honest self.now.device) → IsInOrder (lane_of D.held self.now) }
    {
        // That live records are placed is known from the log's length.
        let _live = self.log.len();
        self.layout
    }

    /// How full the log is.
    pub fn log_usage(&self) -> LogUsage
        ensures { result ≡ usage_of self.now.log }
    {
        self.log.usage()
    }

    /// How many objects are in memory.
    pub fn memory_len(&self) -> usize
        ensures { result ≡ length self.now.memory.pairs }
    {
        self.memory.len()
    }

    /// The device.
    pub fn device(&self) -> &D
        ensures { result.now ≡ self.now.device }
    {
        &self.device
    }

    /// The device, as it is now. What memory held is gone.
    pub fn into_device(self) -> D
        ensures { result ≡ self.device }
    {
        self.device
    }
}

/// Room for as many strikes as all sets of a layout can have: eight a set, so that none is forgotten for want of room.
pub fn strikes_for_all(layout: &Layout) -> u32
    ensures strikes { result ≡ 8 * layout.now.sets }
    ensures bounded { result ≤ 524288 }
{
    8 * layout.sets
}
