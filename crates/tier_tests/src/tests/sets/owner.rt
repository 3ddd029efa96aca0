//! An owner of sets and of the device that their pages lie on.
ghost use Rattle.std.specs.Prelude.{◌<◌, ◌≤◌};
ghost use Rattle.record_pages.specs.Sizes.{IsPageSize, max_set_records};
ghost use Rattle.std.specs.Coded.{codes};
ghost use Rattle.kset.specs.Sets.{sets_code};
ghost use Rattle.tier_tests.specs.SetOwner.{OwnerState, IsOwner};

use super::*;
use page_device::PageDevice;
use record_pages::{Key, Layout, SetPageWriter, ValueBuffer};
use set_hash::place;
use std::alloc::{AllocError, Global};
use std::marker::Model;

/// The sets of a lane with their device. A call speaks of the set of the key that it is given.
#[derive(Drop)]
pub struct Owner<D: PageDevice<PAGE>, const PAGE: usize> {
    layout: Layout,
    device: D,
    sets: KSet<PAGE>,
}

impl<D: PageDevice<PAGE>, const PAGE: usize> Model for Owner<D, PAGE> {
    ghost Value = { OwnerState D };

    ghost coded = { Prim.hlevel (codes, sets_code) };

    ghost view = { λ o. record { device = o.device; sets = o.sets } };

    ghost invariant = { λ o. IsOwner PAGE o.layout.sets D.page_count D.honest D.held (record { device = o.device; sets = o.sets }) };
}

impl<D: PageDevice<PAGE>, const PAGE: usize> Owner<D, PAGE> {
    /// All sets empty, with room for eight strikes each, or nothing if the device is too small.
    pub(super) fn open(
        alloc: Global,
        layout: &Layout,
        device: D,
    ) -> Result<Option<Box<Self>>, AllocError> {
        Self::open_with(alloc, layout, 8 * layout.sets, device)
    }

    /// The same with room for this many strikes.
    pub(super) fn open_with(
        alloc: Global,
        layout: &Layout,
        strikes: u32,
        device: D,
    ) -> Result<Option<Box<Self>>, AllocError>
        requires { strikes ≤ 524288 }
    {
        if device.pages() < layout.sets {
            return Ok(None);
        }
        let owner = Self::over(alloc, layout, strikes, device)?;
        Ok(Some(Box::new(alloc, owner)?))
    }

    // All sets empty, over a device that is large enough.
    fn over(alloc: Global, layout: &Layout, strikes: u32, device: D) -> Result<Self, AllocError>
        requires strikes { strikes ≤ 524288 }
        requires room { layout.now.sets ≤ D.page_count device }
    {
        let sets = KSet::open(alloc, layout, strikes)?;
        Ok(Owner {
            layout: *layout,
            device,
            sets,
        })
    }

    pub(super) fn look(
        &mut self,
        alloc: Global,
        key: &Key,
        moment: u64,
    ) -> Result<Looked, AllocError>
        requires { IsPageSize PAGE }
    {
        let placed = place(&self.layout, key.bytes());
        self.sets
            .look(alloc, &mut self.device, &placed, key, moment)
    }

    /// What is located of the bytes of a key.
    pub(super) fn locate(
        &mut self,
        key: &[u8],
        moment: u64,
        found: &mut ValueBuffer,
    ) -> LocatedInSet
        requires { IsPageSize PAGE }
    {
        let placed = place(&self.layout, key);
        self.sets
            .locate(&mut self.device, &placed, key, moment, found)
    }

    /// Touches a slot.
    pub(super) fn touch(&mut self, key: &[u8], slot: usize)
        requires { slot < max_set_records }
    {
        let placed = place(&self.layout, key);
        self.sets.touch(placed.set, slot);
    }

    pub(super) fn read(&mut self, alloc: Global, key: &Key) -> Result<SetRead, AllocError>
        requires { IsPageSize PAGE }
    {
        let placed = place(&self.layout, key.bytes());
        self.sets.read_set(alloc, &mut self.device, placed.set)
    }

    pub(super) fn strike(&mut self, key: &Key) {
        let placed = place(&self.layout, key.bytes());
        self.sets.strike(&placed);
    }

    pub(super) fn forget(&mut self, key: &Key) {
        let placed = place(&self.layout, key.bytes());
        self.sets.forget(placed.set);
    }

    pub(super) fn device(&self) -> &D {
        &self.device
    }

    pub(super) fn rewrite(&mut self, key: &Key, writer: &SetPageWriter<PAGE>) -> Rewritten
        requires { IsPageSize PAGE }
    {
        let placed = place(&self.layout, key.bytes());
        self.sets.rewrite(&mut self.device, placed.set, writer)
    }
}
