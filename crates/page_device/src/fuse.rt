// A device that fails on demand.
ghost use Rattle.std.specs.Prelude.{◌≡◌, ◌<◌, ◌^◌, ◌+◌, ◌%◌, ℕ, true, false, OnOk, IsTrue, IsErr};
ghost use Rattle.std.specs.Bool.{OnTrue, OnFalse};
ghost use Rattle.page_device.specs.Device.{failures_after, WritesPage, IsKnown};
ghost use Rattle.page_device.specs.Fuse.{Fused, refuses, after_call, new_fuse, total_failures};

use crate::device::PageDevice;
use crate::device_fault::DeviceFault;
use std::marker::Model;

/// A device over another one that refuses one call, or all calls from one on. A refused call does not reach
/// the device below; any other one does.
///
/// Reads and writes are counted from 1. Past the number at which it refuses none is counted, and the number 0
/// stands before the first call: alone it refuses none, for good it refuses all.
#[derive(Drop)]
pub struct FuseDevice<D> {
    inner: D,
    at: u32,
    for_good: bool,
    calls: u32,
    refused: u64,
}

impl<D> Model for FuseDevice<D> {
    ghost Value = { Fused D };

    ghost view = { λ f. record { inner = f.inner; at = f.at; for_good = f.for_good; calls = f.calls; refused = f.refused } };

    ghost invariant = { λ f. f.refused < 2 ^ 64 };
}

impl<D> FuseDevice<D> {
    /// A fuse that refuses call number `at` alone.
    pub fn one(inner: D, at: u32) -> Self
        ensures { result ≡ new_fuse inner at false }
    {
        FuseDevice {
            inner,
            at,
            for_good: false,
            calls: 0,
            refused: 0,
        }
    }

    /// A fuse that refuses call number `at` and all later ones.
    pub fn from(inner: D, at: u32) -> Self
        ensures { result ≡ new_fuse inner at true }
    {
        FuseDevice {
            inner,
            at,
            for_good: true,
            calls: 0,
            refused: 0,
        }
    }

    // Counts a call, and says whether it is refused.
    fn count(&mut self) -> bool
        ensures refused { result ≡ refuses self.old }
        ensures counted { self.new ≡ after_call self.old self.old.inner }
    {
        let refused = if self.calls < self.at {
            self.calls += 1;
            self.calls == self.at
        } else {
            self.for_good
        };
        if refused {
            self.refused = self.refused.wrapping_add(1);
        }
        refused
    }
}

/// Its pages and its honesty are those of the device below, and its failures the refused calls beside them.
impl<D: PageDevice<PAGE>, const PAGE: usize> PageDevice<PAGE> for FuseDevice<D> {
    ghost page_count = { λ f. D.page_count f.inner };

    ghost honest = { λ f. D.honest f.inner };

    ghost held = { λ f. D.held f.inner };

    ghost failures = { λ f. total_failures (D.failures f.inner) f.refused };

    fn pages(&self) -> u32 {
        self.inner.pages()
    }

    fn read(&mut self, page: u32, into: &mut [u8; PAGE]) -> Result<(), DeviceFault>
        requires { page < D.page_count self.old.inner }
        ensures pages { D.page_count self.new.inner ≡ D.page_count self.old.inner }
        ensures honest { D.honest self.new.inner ≡ D.honest self.old.inner }
        ensures failures { total_failures (D.failures self.new.inner) self.new.refused
            ≡ failures_after (total_failures (D.failures self.old.inner) self.old.refused) result }
        ensures same { IsTrue (D.honest self.old.inner) →
            D.held self.new.inner ≡ D.held self.old.inner }
        ensures known { IsTrue (D.honest self.old.inner) →
            OnOk result (IsKnown (D.held self.old.inner page) into.new) }

        // A refused call does not reach the device below; any other one does.
        ensures refused { OnTrue (refuses self.old)
            (IsErr result × (self.new ≡ after_call self.old self.old.inner)) }
        ensures passed { OnFalse (refuses self.old)
            (D.failures self.new.inner ≡ failures_after (D.failures self.old.inner) result) }
        ensures counted { self.new ≡ after_call self.old self.new.inner }
    {
        if self.count() {
            return Err(DeviceFault);
        }
        self.inner.read(page, into)
    }

    fn write(&mut self, page: u32, bytes: &[u8; PAGE]) -> Result<(), DeviceFault>
        requires { page < D.page_count self.old.inner }
        ensures pages { D.page_count self.new.inner ≡ D.page_count self.old.inner }
        ensures honest { D.honest self.new.inner ≡ D.honest self.old.inner }
        ensures failures { total_failures (D.failures self.new.inner) self.new.refused
            ≡ failures_after (total_failures (D.failures self.old.inner) self.old.refused) result }
        ensures written { IsTrue (D.honest self.old.inner) →
            WritesPage (D.held self.old.inner) (D.held self.new.inner) page bytes.now result }

        // A refused call does not reach the device below; any other one does.
        ensures refused { OnTrue (refuses self.old)
            (IsErr result × (self.new ≡ after_call self.old self.old.inner)) }
        ensures passed { OnFalse (refuses self.old)
            (D.failures self.new.inner ≡ failures_after (D.failures self.old.inner) result) }
        ensures counted { self.new ≡ after_call self.old self.new.inner }
    {
        let refused = self.count();
        if refused {
            return Err(DeviceFault);
        }
        self.inner.write(page, bytes)
    }
}
