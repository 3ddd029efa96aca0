// A device in memory.
ghost use Rattle.std.specs.Prelude.{◌≡◌, ◌<◌, ◌^◌, true, OnOk, IfOk, IsOk, IsTrue, slice_get, replicate, length, List, ℕ};
ghost use Rattle.page_device.specs.Device.{WritesPage, IsKnown};

use crate::device::PageDevice;
use crate::device_fault::DeviceFault;
use std::alloc::{AllocError, Global};
use std::marker::Model;

/// Pages in memory. It is honest and never fails.
#[derive(Drop)]
pub struct MemoryDevice<const PAGE: usize> {
    pages: Vec<[u8; PAGE]>,
}

/// Its pages, each a list of bytes.
impl<const PAGE: usize> Model for MemoryDevice<PAGE> {
    ghost Value = { List (List ℕ) };

    ghost view = { λ d. d.pages.items };

    ghost invariant = { λ d. length d.pages.items < 2 ^ 32 };
}

impl<const PAGE: usize> MemoryDevice<PAGE> {
    /// A device of pages of zeros, or `AllocError` if memory was refused.
    pub fn new(alloc: Global, pages: u32) -> Result<Self, AllocError>
        ensures zeros { IfOk result (λ d. d ≡ replicate pages (replicate PAGE 0)) }
    {
        // No memory has an array as large as that.
        if PAGE > isize::MAX as usize {
            return Err(AllocError);
        }
        let pages = vec![in alloc; [0u8; PAGE]; pages as usize]?;
        Ok(MemoryDevice { pages })
    }
}

impl<const PAGE: usize> PageDevice<PAGE> for MemoryDevice<PAGE> {
    ghost page_count = { λ d. length d };

    ghost honest = { λ _. true };

    ghost held = { λ d p. slice_get d p };

    ghost failures = { λ _. 0 };

    fn pages(&self) -> u32 {
        self.pages.len() as u32
    }

    fn read(&mut self, page: u32, into: &mut [u8; PAGE]) -> Result<(), DeviceFault>
        requires { page < length self.old }
        ensures ok { IsOk result }
        ensures unchanged { self.new ≡ self.old }
        ensures same { IsTrue true → slice_get self.new ≡ slice_get self.old }
        ensures known { IsTrue true → OnOk result (IsKnown (slice_get self.old page) into.new) }
    {
        *into = self.pages[page as usize];
        Ok(())
    }

    fn write(&mut self, page: u32, bytes: &[u8; PAGE]) -> Result<(), DeviceFault>
        requires { page < length self.old }
        ensures ok { IsOk result }
        ensures pages { length self.new ≡ length self.old }
        ensures written { IsTrue true →
            WritesPage (slice_get self.old) (slice_get self.new) page bytes.now result }
    {
        self.pages[page as usize] = *bytes;
        Ok(())
    }
}
