// A store that knows all that it was asked.
ghost use Rattle.std.specs.Prelude.{◌≡◌, ◌≤◌, [], length, IfOk};
ghost use Rattle.klog.specs.Usage.{usage_of};
ghost use Rattle.record_pages.specs.Asked.{layout_pages};
ghost use Rattle.record_pages.specs.Sizes.{IsPageSize};
ghost use Rattle.mover.specs.Store.{opening_with};

use crate::trail::Trail;
use key_hash::RandomSeed;
use klog::LogUsage;
use mover::{Store, opening_shows_nothing};
use page_device::PageDevice;
use record_pages::Layout;
use std::alloc::{AllocError, Global};
use std::marker::Model;

mod get;
mod moves;
mod put;

/// A store that knows, in proofs, all that it was asked and answered since it was opened: its deeds, which take no memory.
///
/// What is true of every such store is said of the list of its deeds: on any device each pair in memory is what its key has
/// after them; on an honest one so is each pair that may be shown, and each hit was its key's latest value, live at its moment.
#[derive(Drop)]
pub struct DeedStore<D: PageDevice<PAGE>, const PAGE: usize> {
    store: Store<D, PAGE>,
    trail: Trail,
}

impl<D: PageDevice<PAGE>, const PAGE: usize> Model for DeedStore<D, PAGE> {
    ghost use Rattle.std.specs.Coded.{codes};
    ghost use Rattle.kset.specs.Sets.{sets_code};
    ghost use Rattle.deeds.specs.Asked.{Asked, IsServed};

    ghost Value = { Asked D };

    ghost coded = { Prim.hlevel (codes, sets_code) };

    ghost view = { λ s. record { store = s.store; deeds = s.trail.deeds } };

    ghost invariant = { λ s. IsServed D.honest D.held (record {
      store = s.store;
      deeds = s.trail.deeds;
    }) };
}

impl<D: PageDevice<PAGE>, const PAGE: usize> DeedStore<D, PAGE> {
    ghost use Rattle.std.specs.Prelude.{IsTrue};
    ghost use Rattle.mover.specs.Store.{IsStore};
    ghost use Rattle.deeds.specs.Asked.{IsServed};

    /// An empty store of this layout, of which nothing was asked, over a device that has the layout's pages; or `AllocError`,
    /// with which the device is dropped. All its sets together have room for this many strikes. The table of its memory
    /// hashes by the seed.
    pub fn with_layout(
        alloc: Global,
        layout: &Layout,
        strikes: u32,
        device: D,
        seed: RandomSeed,
    ) -> Result<Self, AllocError>
        requires page_size { IsPageSize PAGE }
        requires strikes { strikes ≤ 524288 }
        requires room { layout_pages layout.now ≤ D.page_count device }
        ensures { IfOk result (λ opened.
            opened ≡ record { store = opening_with strikes layout.now device; deeds = [] }) }
    {
        opening_shows_nothing();
        let store = Store::with_layout(alloc, layout, strikes, device, seed)?;
        Ok(DeedStore {
            store,
            trail: Trail::new(),
        })
    }

    /// The numbers that it was opened with.
    pub fn layout(&self) -> Layout
        ensures layout { result ≡ self.now.store.layout }
        // What is true of every store.
        ensures kept { IsStore PAGE D.page_count D.honest D.held self.now.store }
        ensures served { IsServed D.honest D.held self.now }
    {
        self.store.layout()
    }

    /// How full the log is.
    pub fn log_usage(&self) -> LogUsage
        ensures { result ≡ usage_of self.now.store.log }
    {
        self.store.log_usage()
    }

    /// The device.
    pub fn device(&self) -> &D
        ensures { result.now ≡ self.now.store.device }
    {
        self.store.device()
    }

    /// How many objects are in memory.
    pub fn memory_len(&self) -> usize
        ensures { result ≡ length self.now.store.memory.pairs }
    {
        self.store.memory_len()
    }

    /// The device, as it is now. What memory held is gone.
    pub fn into_device(self) -> D
        ensures { result ≡ self.store.device }
    {
        self.store.into_device()
    }
}
