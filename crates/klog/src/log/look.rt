// Looking a key up in the log.
ghost use Rattle.std.specs.Prelude.{◌≡◌, ℕ, List, Option};
ghost use Rattle.record_pages.specs.Sizes.{IsPageSize};
ghost use Rattle.klog.specs.Names.{HasRoom};
ghost use Rattle.klog.specs.Shown.{IsSpelledOn, live_on, place_in};
ghost use Rattle.klog.specs.Look.{lowered_in, live_lowered};
ghost use Rattle.klog.specs.Calls.{LogLooks};

use super::KLog;
use crate::located_in_log::LocatedInLog;
use klog_index::Entry;
use page_device::PageDevice;
use record_pages::{Key, Looked, Value, ValueBuffer};
use set_hash::Placed;
use std::alloc::{AllocError, Global};

impl<const PAGE: usize> KLog<PAGE> {
    /// The value of the newest live record of a key, if it has not expired at the moment: its prediction is then one
    /// less, and not below 0. All other answers, and `AllocError`, change nothing. A record that lies in memory is
    /// given without a call of the device.
    pub fn look<D: PageDevice<PAGE>>(
        &mut self,
        alloc: Global,
        device: &mut D,
        placed: &Placed,
        key: &Key,
        moment: u64,
    ) -> Result<Looked, AllocError>
        requires page_size { IsPageSize PAGE }
        requires room { HasRoom (D.page_count device.old) self.old }
        requires place { placed.now ≡ place_in self.old.shape key.now }
        ensures { LogLooks PAGE D.page_count D.honest D.failures D.held placed.now key.now moment
            self.old device.old result self.new device.new }
    {
        let mut found = ValueBuffer::empty();
        match self.locate(device, placed, key.bytes(), moment, &mut found) {
            LocatedInLog::Absent => Ok(Looked::Absent),
            LocatedInLog::Expired => Ok(Looked::Expired),
            LocatedInLog::Fault => Ok(Looked::Fault),
            LocatedInLog::Damaged => Ok(Looked::Damaged),
            LocatedInLog::Hit { entry, expires: _ } => {
                let Ok(value) = Value::new(alloc, found.bytes()) else {
                    return Err(AllocError);
                };
                self.touch(&entry);
                Ok(Looked::Hit(value))
            }
        }
    }

    /// The prediction of the live record of this entry is one less, and not below 0. It can't fail, and takes no
    /// memory.
    pub fn touch(&mut self, entry: &Entry)
        ensures shape { self.new.shape ≡ self.old.shape }
        ensures touched { self.new ≡ lowered_in self.old entry.now.set entry.now.place }
        ensures spelled { (held : ℕ → Option (List ℕ)) → IsSpelledOn PAGE held self.old →
            IsSpelledOn PAGE held self.new }
        ensures shown { (held : ℕ → Option (List ℕ)) → live_on held self.new
            ≡ live_lowered entry.now.set entry.now.place (live_on held self.old) }
    {
        self.index.lower_in(entry.set, entry.place);
    }
}
