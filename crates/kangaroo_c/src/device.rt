// A device over pages that are lent.
ghost use Rattle.std.specs.Prelude.{◌≡◌, ◌<◌, ◌^◌, true, OnOk, IsOk, IsTrue, slice_get, length, List, ℕ};
ghost use Rattle.page_device.specs.Device.{WritesPage, IsKnown};

use crate::lent::Lent;
use page_device::{DeviceFault, PageDevice};
use std::marker::Model;
use std_alloc::vec::{Lodged, Vec as AnyVec};

/// Pages in memory that was lent. It is honest and never fails.
#[derive(Drop)]
pub struct MappedDevice<const PAGE: usize> {
    pages: AnyVec<[u8; PAGE], Lodged>,
}

/// Its pages, each a list of bytes.
impl<const PAGE: usize> Model for MappedDevice<PAGE> {
    ghost Value = { List (List ℕ) };

    ghost view = { λ d. d.pages.items };

    ghost invariant = { λ d. length d.pages.items < 2 ^ 32 };
}

impl<const PAGE: usize> MappedDevice<PAGE> {
    /// A device of these pages, as they are.
    pub fn new(memory: Lent<[u8; PAGE]>) -> Self
        ensures { result ≡ memory.entry.values }
    {
        let pages = memory.into_vec();
        MappedDevice { pages }
    }
}

impl<const PAGE: usize> PageDevice<PAGE> for MappedDevice<PAGE> {
    ghost page_count = { λ d. length d };

    ghost honest = { λ _. true };

    ghost held = { λ d p. slice_get d p };

    ghost failures = { λ _. 0 };

    fn pages(&self) -> u32 {
        self.pages.len() as u32
    }

    fn read(&mut self, page: u32, into: &mut [u8; PAGE]) -> Result<(), DeviceFault>
        requires { page < length self.old }
        ensures ok { IsOk result }
        ensures unchanged { self.new ≡ self.old }
        ensures same { IsTrue true → slice_get self.new ≡ slice_get self.old }
        ensures known { IsTrue true → OnOk result (IsKnown (slice_get self.old page) into.new) }
    {
        *into = self.pages[page as usize];
        Ok(())
    }

    fn write(&mut self, page: u32, bytes: &[u8; PAGE]) -> Result<(), DeviceFault>
        requires { page < length self.old }
        ensures ok { IsOk result }
        ensures pages { length self.new ≡ length self.old }
        ensures written { IsTrue true →
            WritesPage (slice_get self.old) (slice_get self.new) page bytes.now result }
    {
        self.pages[page as usize] = *bytes;
        Ok(())
    }
}
