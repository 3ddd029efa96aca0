// Writing filled segments to the device.
ghost use Rattle.std.specs.Prelude.{◌≡◌, IsTrue, not, true};
ghost use Rattle.page_device.specs.Lending.{OnlyWrites};
ghost use Rattle.record_pages.specs.Sizes.{IsPageSize};
ghost use Rattle.klog.specs.Names.{HasRoom, flushed_number, device_page};
ghost use Rattle.klog.specs.Flush.{CanFlush, moved_on, without_next, WritesNext};
ghost use Rattle.klog.specs.Calls.{LogFlushes};

use super::KLog;
use crate::flushed::Flushed;
use page_device::PageDevice;

impl<const PAGE: usize> KLog<PAGE> {
    /// One step of flushing. With a segment to be flushed its next page is written, or, if the device fails, its live
    /// records are lost; it waits while the device has no segment free. Without one, the filled segment becomes it if
    /// it has a record. No memory is taken.
    pub fn flush_step<D: PageDevice<PAGE>>(&mut self, device: &mut D) -> Flushed
        requires page_size { IsPageSize PAGE }
        requires room { HasRoom (D.page_count device.old) self.old }
        ensures { LogFlushes PAGE D.page_count D.honest D.failures D.held self.old device.old result
            self.new device.new }
    {
        if self.is_flushing {
            return self.flush_page(device);
        }
        if self.filling.len() == 0 {
            return Flushed::Nothing;
        }
        self.seal();
        Flushed::Sealed
    }

    // Writes the next page of the flushed segment.
    fn flush_page<D: PageDevice<PAGE>>(&mut self, device: &mut D) -> Flushed
        requires page_size { IsPageSize PAGE }
        requires room { HasRoom (D.page_count device.old) self.old }
        requires flushing { self.old.is_flushing ≡ true }
        ensures { LogFlushes PAGE D.page_count D.honest D.failures D.held self.old device.old result
            self.new device.new }
    {
        if self.done == 0 && self.stored == self.layout.segments {
            return Flushed::LogFull;
        }
        if self.write_page(device) {
            self.move_on();
            return Flushed::Wrote;
        }
        self.lose_page();
        self.move_on();
        Flushed::PageLost
    }

    // Writes the next page of the flushed segment, and says whether the device took it.
    fn write_page<D: PageDevice<PAGE>>(&self, device: &mut D) -> bool
        requires page_size { IsPageSize PAGE }
        requires room { HasRoom (D.page_count device.old) self.now }
        requires flushing { self.now.is_flushing ≡ true }
        ensures writes { OnlyWrites D.page_count D.honest D.failures D.held
            (device_page self.now (flushed_number self.now) self.now.done) device.old (not result)
            device.new }
        ensures written { IsTrue (D.honest device.old) →
            WritesNext PAGE self.now result (D.held device.old) (D.held device.new) }
    {
        let number = self.flushed_number();
        let Some(writer) = self.flushing.page(self.done as usize) else {
            // Flushing of a segment ends with its last page, so the next page is one of the segment.
            unreachable!();
        };
        let mut bytes = [0u8; PAGE];
        writer.text(number, self.done as u16, &mut bytes);
        let page = self.device_page(number, self.done);
        let Ok(()) = device.write(page, &bytes) else {
            return false;
        };
        true
    }

    // Drops the entries of the page that is flushed next.
    fn lose_page(&mut self)
        requires { self.old.is_flushing ≡ true }
        ensures { self.new ≡ without_next self.old }
    {
        let name = self.name_of(self.flushed_number());
        self.index.drop_page(name, self.done as u8);
    }

    // One page is done; after the last one the segment is on the device.
    fn move_on(&mut self)
        requires { CanFlush self.old }
        ensures { self.new ≡ moved_on self.old }
    {
        let pages = self.flushing.len();
        self.done += 1;
        if self.done as usize == pages {
            self.done = 0;
            self.stored += 1;
            self.is_flushing = false;
            self.flushing.clear();
        }
    }
}
