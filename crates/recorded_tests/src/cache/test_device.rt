//! A device that is told apart from others, knows what was written to it, waits at a gate and may go back on a page.
ghost use Rattle.std.specs.Prelude.{length, false, None};

use super::gate::Gate;
use page_device::{DeviceFault, PageDevice};
use std::alloc::Global;
use std::sync::Arc;
use test_devices::StaleDevice;

/// Pages in memory with a number, and how many of them were written that are no sets' pages, and that are. A read waits at
/// the gate, if there is one, and fails if that was not opened in time.
#[derive(Drop)]
pub struct TestDevice {
    pub pages: StaleDevice<256>,
    pub gate: Option<Arc<Gate, Global>>,
    pub number: u32,
    pub sets: u32,
    pub log_writes: u32,
    pub set_writes: u32,
    pub failures: u64,
}

impl TestDevice {
    // Whether there is no gate, or it was opened in time.
    fn passes(&self) -> bool {
        match &self.gate {
            Some(gate) => gate.pass(),
            None => true,
        }
    }
}

impl PageDevice<256> for TestDevice {
    ghost page_count = { λ d. length d.pages.pages };

    ghost honest = { λ _. false };

    ghost held = { λ _ _. None };

    ghost failures = { λ d. d.failures };

    fn pages(&self) -> u32 {
        self.pages.pages()
    }

    fn read(&mut self, page: u32, into: &mut [u8; 256]) -> Result<(), DeviceFault> {
        if !self.passes() {
            self.failures = self.failures.wrapping_add(1);
            return Err(DeviceFault);
        }
        self.pages.read(page, into)
    }

    fn write(&mut self, page: u32, bytes: &[u8; 256]) -> Result<(), DeviceFault> {
        if page < self.sets {
            self.set_writes = self.set_writes.wrapping_add(1);
        } else {
            self.log_writes = self.log_writes.wrapping_add(1);
        }
        self.pages.write(page, bytes)
    }
}
