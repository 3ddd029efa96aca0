// A device that counts what it is asked.
ghost use Rattle.std.specs.Prelude.{◌≡◌, ◌<◌, OnOk, IsTrue};
ghost use Rattle.page_device.specs.Device.{failures_after, WritesPage, IsKnown};
ghost use Rattle.page_device.specs.Counting.{no_device_counts, with_read, with_write};

use crate::device::PageDevice;
use crate::device_counts::DeviceCounts;
use crate::device_fault::DeviceFault;
use std::marker::Model;

/// A device that counts what it is asked. Otherwise it is that device.
#[derive(Drop)]
pub struct CountedPages<D> {
    device: D,
    counts: DeviceCounts,
}

impl<D> Model for CountedPages<D> {
    ghost use Rattle.page_device.specs.Counting.{CountedDevice};

    ghost Value = { CountedDevice D };

    ghost view = { λ c. record { device = c.device; counts = c.counts } };
}

impl<D> CountedPages<D> {
    /// The device, with nothing counted yet.
    pub fn new(device: D) -> CountedPages<D>
        ensures { result ≡ record { device = device; counts = no_device_counts } }
    {
        CountedPages {
            device,
            counts: DeviceCounts {
                pages_read: 0,
                reads_failed: 0,
                pages_written: 0,
                writes_failed: 0,
            },
        }
    }

    /// What it was asked.
    pub fn counts(&self) -> DeviceCounts
        ensures { result ≡ self.now.counts }
    {
        self.counts
    }

    /// The device.
    pub fn into_inner(self) -> D
        ensures { result ≡ self.device }
    {
        self.device
    }
}

impl<D: PageDevice<PAGE>, const PAGE: usize> PageDevice<PAGE> for CountedPages<D> {
    ghost page_count = { λ c. D.page_count c.device };

    ghost honest = { λ c. D.honest c.device };

    ghost held = { λ c. D.held c.device };

    ghost failures = { λ c. D.failures c.device };

    fn pages(&self) -> u32 {
        self.device.pages()
    }

    fn read(&mut self, page: u32, into: &mut [u8; PAGE]) -> Result<(), DeviceFault>
        requires { page < D.page_count self.old.device }
        ensures counted { self.new.counts ≡ with_read result self.old.counts }

        // What it is as a device.
        ensures pages { D.page_count self.new.device ≡ D.page_count self.old.device }
        ensures honest { D.honest self.new.device ≡ D.honest self.old.device }
        ensures failures { D.failures self.new.device
            ≡ failures_after (D.failures self.old.device) result }
        ensures same { IsTrue (D.honest self.old.device) →
            D.held self.new.device ≡ D.held self.old.device }
        ensures known { IsTrue (D.honest self.old.device) →
            OnOk result (IsKnown (D.held self.old.device page) into.new) }
    {
        let read = self.device.read(page, into);
        match read {
            Ok(()) => self.counts.pages_read = self.counts.pages_read.wrapping_add(1),
            Err(_) => self.counts.reads_failed = self.counts.reads_failed.wrapping_add(1),
        }
        read
    }

    fn write(&mut self, page: u32, bytes: &[u8; PAGE]) -> Result<(), DeviceFault>
        requires { page < D.page_count self.old.device }
        ensures counted { self.new.counts ≡ with_write result self.old.counts }

        // What it is as a device.
        ensures pages { D.page_count self.new.device ≡ D.page_count self.old.device }
        ensures honest { D.honest self.new.device ≡ D.honest self.old.device }
        ensures failures { D.failures self.new.device
            ≡ failures_after (D.failures self.old.device) result }
        ensures written { IsTrue (D.honest self.old.device) →
            WritesPage (D.held self.old.device) (D.held self.new.device) page bytes.now result }
    {
        let written = self.device.write(page, bytes);
        match written {
            Ok(()) => self.counts.pages_written = self.counts.pages_written.wrapping_add(1),
            Err(_) => self.counts.writes_failed = self.counts.writes_failed.wrapping_add(1),
        }
        written
    }
}
