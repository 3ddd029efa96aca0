// A device that goes back on one page.
ghost use Rattle.std.specs.Prelude.{◌≡◌, ◌<◌, ◌^◌, false, None, IfOk, IsOk, length};
ghost use Rattle.test_devices.specs.Stale.{Stale, after_write, bytes_of, new_stale};

use page_device::{DeviceFault, PageDevice};
use std::alloc::{AllocError, Global};
use std::marker::Model;

/// Pages in memory of which one goes stale: once that was written this many times, a read of it gives the bytes that it
/// had before its last write. Each other page is read as it was last written. No call fails.
///
/// It is not honest, so as a `PageDevice` it promises no bytes. What a read gives is said by its own contract.
#[derive(Drop)]
pub struct StaleDevice<const PAGE: usize> {
    pages: Vec<[u8; PAGE]>,
    page: u32,
    left: u32,
    before: [u8; PAGE],
}

/// Its pages as they were last written, the page that goes stale, after how many further writes, and what that page was
/// before its last write.
impl<const PAGE: usize> Model for StaleDevice<PAGE> {
    ghost Value = { Stale };

    ghost view = { λ d. record { pages = d.pages.items; page = d.page; left = d.left; before = d.before } };

    ghost invariant = { λ d. length d.pages.items < 2 ^ 32 };
}

impl<const PAGE: usize> StaleDevice<PAGE> {
    /// A device of pages of zeros, of which this one goes stale after this many writes, from the start if they are 0. A page
    /// that the device has not may be named: then none goes stale. `AllocError` if memory was refused.
    pub fn new(alloc: Global, pages: u32, page: u32, writes: u32) -> Result<Self, AllocError>
        ensures { IfOk result (λ device. device ≡ new_stale PAGE pages page writes) }
    {
        // No memory has an array as large as that.
        if PAGE > isize::MAX as usize {
            return Err(AllocError);
        }
        let pages = vec![in alloc; [0u8; PAGE]; pages as usize]?;
        Ok(StaleDevice {
            pages,
            page,
            left: writes,
            before: [0u8; PAGE],
        })
    }
}

impl<const PAGE: usize> PageDevice<PAGE> for StaleDevice<PAGE> {
    ghost page_count = { λ d. length d.pages };

    ghost honest = { λ _. false };

    ghost held = { λ _ _. None };

    ghost failures = { λ _. 0 };

    fn pages(&self) -> u32 {
        self.pages.len() as u32
    }

    fn read(&mut self, page: u32, into: &mut [u8; PAGE]) -> Result<(), DeviceFault>
        requires { page < length self.old.pages }
        ensures ok { IsOk result }
        ensures unchanged { self.new ≡ self.old }
        ensures bytes { into.new ≡ bytes_of self.old page }
    {
        *into = if page == self.page && self.left == 0 {
            self.before
        } else {
            self.pages[page as usize]
        };
        Ok(())
    }

    fn write(&mut self, page: u32, bytes: &[u8; PAGE]) -> Result<(), DeviceFault>
        requires { page < length self.old.pages }
        ensures ok { IsOk result }
        ensures written { self.new ≡ after_write self.old page bytes.now }
    {
        if page == self.page {
            self.left = self.left.saturating_sub(1);
            self.before = self.pages[page as usize];
        }
        self.pages[page as usize] = *bytes;
        Ok(())
    }
}
