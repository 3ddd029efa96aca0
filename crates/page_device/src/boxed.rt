// A device in memory of its own.
ghost use Rattle.std.specs.Prelude.{◌≡◌, IfOk};

use crate::device::PageDevice;
use crate::device_fault::DeviceFault;
use std::alloc::{AllocError, Global};
use std::marker::Model;

/// A device in memory of its own, so that what holds it has a size that is known whatever the device. It is that
/// device.
#[derive(Drop)]
pub struct Boxed<D> {
    device: Box<D>,
}

impl<D> Model for Boxed<D> {
    ghost Value = { D };

    ghost view = { λ b. b.device.value };
}

impl<D> Boxed<D> {
    /// The device, moved into memory of its own, or `AllocError` if that was refused: then it is dropped.
    pub fn new(alloc: Global, device: D) -> Result<Boxed<D>, AllocError>
    where
        D: Drop,
        ensures { IfOk result (λ boxed. boxed ≡ device) }
    {
        Ok(Boxed {
            device: Box::new(alloc, device)?,
        })
    }

    /// The device.
    pub fn into_inner(self) -> D
        ensures { result ≡ self }
    {
        Box::into_inner(self.device)
    }
}

impl<D: PageDevice<PAGE>, const PAGE: usize> PageDevice<PAGE> for Boxed<D> {
    ghost page_count = { D.page_count };

    ghost honest = { D.honest };

    ghost held = { D.held };

    ghost failures = { D.failures };

    fn pages(&self) -> u32 {
        self.device.pages()
    }

    fn read(&mut self, page: u32, into: &mut [u8; PAGE]) -> Result<(), DeviceFault> {
        self.device.read(page, into)
    }

    fn write(&mut self, page: u32, bytes: &[u8; PAGE]) -> Result<(), DeviceFault> {
        self.device.write(page, bytes)
    }
}
