//! An owner of a log and of the device that its segments lie on.
ghost use Rattle.std.specs.Prelude.{◌≡◌, ◌≤◌, ◌+◌, ◌*◌};
ghost use Rattle.record_pages.specs.Sizes.{IsPageSize};
ghost use Rattle.klog.specs.Shown.{place_in};
ghost use Rattle.tier_tests.specs.LogOwner.{OwnerState, IsOwner};

use super::*;
use record_pages::{TimedValue, ValueBuffer, is_too_large};
use set_hash::{Placed, place};
use std::marker::Model;

/// The log of a lane with its device.
#[derive(Drop)]
pub struct Owner<D: PageDevice<PAGE>, const PAGE: usize> {
    layout: Layout,
    device: D,
    log: KLog<PAGE>,
}

impl<D: PageDevice<PAGE>, const PAGE: usize> Model for Owner<D, PAGE> {
    ghost Value = { OwnerState D };

    ghost view = { λ o. record { device = o.device; log = o.log } };

    ghost invariant = { λ o. IsOwner PAGE o.layout D.page_count D.honest D.held (record { device = o.device; log = o.log }) };
}

impl<D: PageDevice<PAGE>, const PAGE: usize> Owner<D, PAGE> {
    /// A log with no record, or nothing if the device is too small.
    pub(super) fn open(
        alloc: Global,
        layout: &Layout,
        device: D,
    ) -> Result<Option<Box<Self>>, AllocError>
        requires { IsPageSize PAGE }
    {
        if device.pages() < layout.sets + layout.segments * layout.segment_pages {
            return Ok(None);
        }
        let owner = Self::over(alloc, layout, device)?;
        Ok(Some(Box::new(alloc, owner)?))
    }

    // A log with no record, over a device that is large enough.
    fn over(alloc: Global, layout: &Layout, device: D) -> Result<Self, AllocError>
        requires size { IsPageSize PAGE }
        requires room { layout.now.sets + layout.now.segments * layout.now.segment_pages
            ≤ D.page_count device }
    {
        let log = KLog::open(alloc, layout)?;
        Ok(Owner {
            layout: *layout,
            device,
            log,
        })
    }

    /// What became of the record, or nothing if the object is too large for a page.
    pub(super) fn append(&mut self, key: &Key, value: &TimedValue) -> Option<Appended>
        requires { IsPageSize PAGE }
    {
        if is_too_large::<PAGE>(key, &value.value) {
            return None;
        }
        Some(self.log.append(key, value))
    }

    /// The newest record of the key at a moment, or that there is none, or that the device failed.
    pub(super) fn look(
        &mut self,
        alloc: Global,
        key: &Key,
        moment: u64,
    ) -> Result<Looked, AllocError>
        requires { IsPageSize PAGE }
    {
        let placed = self.placed(key.bytes());
        self.log.look(alloc, &mut self.device, &placed, key, moment)
    }

    /// Where the newest record of a key is at a moment.
    pub(super) fn locate(
        &mut self,
        key: &[u8],
        moment: u64,
        found: &mut ValueBuffer,
    ) -> LocatedInLog
        requires { IsPageSize PAGE }
    {
        let placed = self.placed(key);
        self.log
            .locate(&mut self.device, &placed, key, moment, found)
    }

    pub(super) fn touch(&mut self, entry: &Entry) {
        self.log.touch(entry);
    }

    /// Where a key belongs.
    pub(super) fn placed(&self, key: &[u8]) -> Placed
        ensures { result ≡ place_in self.now.log.shape key.now }
    {
        place(&self.layout, key)
    }

    pub(super) fn strike(&mut self, key: &Key) {
        let placed = place(&self.layout, key.bytes());
        self.log.strike(&placed);
    }

    pub(super) fn flush(&mut self) -> Flushed
        requires { IsPageSize PAGE }
    {
        self.log.flush_step(&mut self.device)
    }

    pub(super) fn oldest(&self) -> Oldest {
        self.log.oldest(&[])
    }

    /// What is reported of the oldest segment if entries of these sets are passed over.
    pub(super) fn oldest_but(&self, passed: &[u32]) -> Oldest {
        self.log.oldest(passed)
    }

    pub(super) fn take(&mut self, alloc: Global, set: u32) -> Result<SetTaken, AllocError>
        requires { IsPageSize PAGE }
    {
        self.log.take_set(alloc, &mut self.device, set)
    }

    pub(super) fn drop_taken(&mut self, set: u32, taken: &TakenRecords) {
        self.log.drop_taken(set, taken);
    }

    /// Drops what `oldest` tells, and says whether it tells of an entry.
    pub(super) fn drop_oldest(&mut self) -> bool {
        let Oldest::First(entry) = self.log.oldest(&[]) else {
            return false;
        };
        self.log.drop_entry(&entry);
        true
    }

    /// Readmits what `oldest` tells, or nothing if it tells of no entry.
    pub(super) fn readmit(&mut self) -> Option<Readmitted>
        requires { IsPageSize PAGE }
    {
        let Oldest::First(entry) = self.log.oldest(&[]) else {
            return None;
        };
        Some(self.log.readmit(&mut self.device, &entry))
    }

    /// Frees the oldest segment on the device if it has no live record, and says whether it had none.
    pub(super) fn free(&mut self) -> bool {
        let Oldest::Empty = self.log.oldest(&[]) else {
            return false;
        };
        self.log.free_oldest();
        true
    }

    pub(super) fn len(&self) -> usize {
        self.log.len()
    }

    pub(super) fn device(&self) -> &D {
        &self.device
    }
}
