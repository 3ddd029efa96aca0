//! A device that counts its calls.
ghost use Rattle.std.specs.Prelude.{length, slice_get, true};

use super::counts::Counts;
use page_device::{DeviceFault, MemoryDevice, PageDevice};
use std::alloc::Global;
use std::sync::Arc;

/// Pages in memory, of which the first so many are those of sets. Each read and each write is counted.
#[derive(Drop)]
pub struct CountingDevice {
    pub pages: MemoryDevice<4096>,
    pub sets: u32,
    pub counts: Arc<Counts, Global>,
}

impl PageDevice<4096> for CountingDevice {
    ghost page_count = { λ d. length d.pages };

    ghost honest = { λ _. true };

    ghost held = { λ d p. slice_get d.pages p };

    ghost failures = { λ _. 0 };

    fn pages(&self) -> u32 {
        self.pages.pages()
    }

    fn read(&mut self, page: u32, into: &mut [u8; 4096]) -> Result<(), DeviceFault> {
        self.counts.count_read();
        self.pages.read(page, into)
    }

    fn write(&mut self, page: u32, bytes: &[u8; 4096]) -> Result<(), DeviceFault> {
        self.counts.count_write(page, self.sets);
        self.pages.write(page, bytes)
    }
}
