// Searching the log for a key.
ghost use Rattle.std.specs.Prelude.{◌≡◌, ℕ, List, Option, IsTrue, Contains};
ghost use Rattle.std.specs.Bool.{OnFalse};
ghost use Rattle.std.specs.Iterator.{YieldsFirst};
ghost use Rattle.page_device.specs.Lending.{OnlyReads};
ghost use Rattle.record_pages.specs.Sizes.{IsPageSize};
ghost use Rattle.klog.specs.Names.{HasRoom};
ghost use Rattle.klog.specs.Shown.{place_in, shown_on};
ghost use Rattle.klog.specs.Known.{AreHeldBy, is_buffered, IsHad};
ghost use Rattle.klog.specs.Fetch.{is_fetch_fault, FetchGives, IsItsOwn, IsPlaceOf};
ghost use Rattle.klog.specs.Find.{with_tag, is_told_fault, is_told_hit, TellsKey};
ghost use Rattle.klog.specs.Locate.{LogLocates};

use super::KLog;
use crate::fetched::Fetched;
use crate::located_in_log::LocatedInLog;
use crate::record_answer::RecordAnswer;
use klog_index::{EntriesOf, Entry};
use page_device::PageDevice;
use record_pages::{ValueBuffer, is_live};
use set_hash::Placed;

impl<const PAGE: usize> KLog<PAGE> {
    /// The entry of the newest live record of a key, and when that expires, if it is live at the moment: its value is then in
    /// the buffer. All other answers leave the buffer as it was. A record that lies in memory is found without a call of
    /// the device. No memory is taken.
    pub fn locate<D: PageDevice<PAGE>>(
        &self,
        device: &mut D,
        placed: &Placed,
        key: &[u8],
        moment: u64,
        found: &mut ValueBuffer,
    ) -> LocatedInLog
        requires page_size { IsPageSize PAGE }
        requires room { HasRoom (D.page_count device.old) self.now }
        requires place { placed.now ≡ place_in self.now.shape key.now }
        ensures { LogLocates PAGE D.page_count D.honest D.failures D.held placed.now key.now moment
            self.now device.old found.old result device.new found.new }
    {
        let mut entries = self.index.entries_of(placed.set);
        for _ in 0..self.index.len() {
            let Some(entry) = next_with_tag(&mut entries, placed.tag) else {
                return LocatedInLog::Absent;
            };
            match self.ask(device, &entry, key, moment, found) {
                RecordAnswer::Other => {}
                RecordAnswer::Hit(expires) => return LocatedInLog::Hit { entry, expires },
                RecordAnswer::Expired => return LocatedInLog::Expired,
                RecordAnswer::Fault => return LocatedInLog::Fault,
                RecordAnswer::Damaged => return LocatedInLog::Damaged,
            }
        }
        LocatedInLog::Absent
    }

    // What the record of an entry says of a key. A live value of the key goes into the buffer. Bytes for a page are
    // made if one is read.
    fn ask<D: PageDevice<PAGE>>(
        &self,
        device: &mut D,
        entry: &Entry,
        key: &[u8],
        moment: u64,
        found: &mut ValueBuffer,
    ) -> RecordAnswer
        requires page_size { IsPageSize PAGE }
        requires room { HasRoom (D.page_count device.old) self.now }
        requires listed { Contains self.now.entries entry.now }
        requires its { IsPlaceOf self.now.shape key.now entry.now }
        ensures reads { OnlyReads D.page_count D.honest D.failures D.held device.old (is_told_fault result)
            device.new }
        ensures stays { OnFalse (is_told_hit result) (found.new ≡ found.old) }
        ensures buffered { IsTrue (is_buffered self.now entry.now) → device.new ≡ device.old }
        ensures tells { (known : ℕ → Option (List ℕ)) → AreHeldBy D.honest D.held device.old known →
            TellsKey PAGE known self.now entry.now key.now moment found.new result }
    {
        match self.buffer_of(entry) {
            Some(buffer) => {
                let fetched = self.fetch_buffered(buffer, entry, Some(key));
                self.tell(entry, fetched, key, moment, found)
            }
            None => {
                let mut bytes = [0u8; PAGE];
                let fetched = self.fetch_stored(device, entry, &mut bytes, Some(key));
                self.tell(entry, fetched, key, moment, found)
            }
        }
    }

    // What this reading of an entry's record says of a key.
    fn tell(
        &self,
        entry: &Entry,
        fetched: Fetched<'_>,
        key: &[u8],
        moment: u64,
        found: &mut ValueBuffer,
    ) -> RecordAnswer
        requires { IsItsOwn PAGE self.now.shape entry.now fetched }
        ensures fault { is_told_fault result ≡ is_fetch_fault fetched.entry }
        ensures stays { OnFalse (is_told_hit result) (found.new ≡ found.old) }
        ensures tells { (known : ℕ → Option (List ℕ)) →
            (IsHad known self.now entry.now → FetchGives PAGE self.now.shape entry.now
            (shown_on known self.now entry.now) fetched.entry) →
            TellsKey PAGE known self.now entry.now key.now moment found.new result }
    {
        match fetched {
            Fetched::Fault => RecordAnswer::Fault,
            Fetched::Damaged => RecordAnswer::Damaged,
            Fetched::Record(record) => {
                if record.key != key {
                    return RecordAnswer::Other;
                }
                if !is_live(record.expires, moment) {
                    return RecordAnswer::Expired;
                }
                found.set(record.value);
                RecordAnswer::Hit(record.expires)
            }
        }
    }
}

// The next of these entries that has this tag.
fn next_with_tag(entries: &mut EntriesOf<'_>, tag: u16) -> Option<Entry>
    ensures { YieldsFirst (with_tag tag) entries.old result entries.new }
{
    while let Some(entry) = entries.next() {
        if entry.tag == tag {
            return Some(entry);
        }
    }
    None
}
