// What leaves the log, from its oldest segment.
ghost use Rattle.std.specs.Prelude.{◌≡◌, ◌<◌, ℕ, List, [], ◌∷◌, length, Option, Some, IfOk, IsTrue, filter, not, false, Contains};
ghost use Rattle.page_device.specs.Device.{faults_after};
ghost use Rattle.page_device.specs.Lending.{ReadsOrStops};
ghost use Rattle.record_pages.specs.Sizes.{IsPageSize};
ghost use Rattle.record_pages.specs.Recs.{Rec};
ghost use Rattle.record_pages.specs.Lent.{record_shown};
ghost use Rattle.klog.specs.Names.{HasRoom};
ghost use Rattle.klog.specs.Shown.{CanStandFor, IsLiveOn, IsSpelledOn, shown_on, live_on};
ghost use Rattle.klog.specs.Known.{is_buffered, AreBuffered};
ghost use Rattle.klog.specs.Take.{is_missing, Copies, is_lost_page, IsToBeTaken, Gathers, GathersAt};
ghost use Rattle.klog.specs.Moves.{TellsOldest, IsFirstLive, IsOfOldest, freed, is_taken, dropped, without_entry, live_without_entry, without_its_page, live_without_page, EntersAnew, is_readmit_fault, live_anew, taken_entries};
ghost use Rattle.klog.specs.Calls.{LogReadmits, LogTakes};

use super::KLog;
use crate::fetched::Fetched;
use crate::gathered::Gathered;
use crate::oldest::Oldest;
use crate::readmitted::Readmitted;
use crate::set_taken::SetTaken;
use crate::sources::Sources;
use crate::taken_record::{TakenRecord, TakenRecords};
use klog_index::Entry;
use page_device::PageDevice;
use record_pages::{Prediction, RecordRef};
use std::alloc::{AllocError, Global};

/// The most records of a set that are taken at once.
pub const MAX_TAKEN: usize = 32;

impl<const PAGE: usize> KLog<PAGE> {
    /// What is live in the oldest segment on the device: its live entry of least page, then slot, of those that are of
    /// none of these sets. It goes over as many entries as it passes over, and one more; no call of the device is made.
    pub fn oldest(&self, passed: &[u32]) -> Oldest
        ensures tells { TellsOldest passed.now self.now result }
        ensures first { IsFirstLive passed.now self.now result }
    {
        if self.stored == 0 {
            return Oldest::NoSegment;
        }
        let Some(entry) = self.index.oldest() else {
            return Oldest::Empty;
        };
        let segment = entry.place.segment;
        if self.number_of(segment) != self.first {
            return Oldest::Empty;
        }
        match self.index.oldest_but(segment, passed) {
            Some(first) => Oldest::First(first),
            None => Oldest::Passed,
        }
    }

    /// Frees the oldest segment on the device, none of whose records is live.
    pub fn free_oldest(&mut self)
        requires { TellsOldest [] self.old Oldest.Empty }
        ensures shape { self.new.shape ≡ self.old.shape }
        ensures freed { self.new ≡ freed self.old }
        ensures spelled { (held : ℕ → Option (List ℕ)) → IsSpelledOn PAGE held self.old →
            IsSpelledOn PAGE held self.new }
        ensures shown { (held : ℕ → Option (List ℕ)) →
            live_on held self.new ≡ live_on held self.old }
    {
        self.first += 1;
        self.stored -= 1;
    }

    /// Drops the live records of a set that were taken as these. One whose segment was freed since is passed over, also
    /// if another record lies at its place now.
    pub fn drop_taken(&mut self, set: u32, taken: &TakenRecords)
        ensures shape { self.new.shape ≡ self.old.shape }
        ensures dropped { self.new ≡ dropped self.old set taken.now }
        ensures spelled { (held : ℕ → Option (List ℕ)) → IsSpelledOn PAGE held self.old →
            IsSpelledOn PAGE held self.new }
        ensures shown { (held : ℕ → Option (List ℕ)) → live_on held self.new
            ≡ filter (λ x. not (is_taken self.old set taken.now x.0)) (live_on held self.old) }
    {
        let sources = Sources {
            taken,
            first: self.first,
            names: self.names(),
        };
        self.index.drop_passing(set, &sources);
    }

    /// Drops a live record, that of this entry.
    pub fn drop_entry(&mut self, entry: &Entry)
        ensures shape { self.new.shape ≡ self.old.shape }
        ensures dropped { self.new ≡ without_entry self.old entry.now }
        ensures fewer { Contains self.old.entries entry.now →
            length self.new.entries < self.new.shape.limit }
        ensures spelled { (held : ℕ → Option (List ℕ)) → IsSpelledOn PAGE held self.old →
            IsSpelledOn PAGE held self.new }
        ensures shown { (held : ℕ → Option (List ℕ)) → live_on held self.new
            ≡ live_without_entry entry.now (live_on held self.old) }
    {
        self.index.drop_in(entry.set, entry.place);
    }

    /// Reads the record of a live entry of the oldest segment on the device, drops it there, and adds it anew with
    /// the entering prediction, as the newest. No memory is taken.
    pub fn readmit<D: PageDevice<PAGE>>(&mut self, device: &mut D, entry: &Entry) -> Readmitted
        requires page_size { IsPageSize PAGE }
        requires room { HasRoom (D.page_count device.old) self.old }
        requires oldest { IsOfOldest self.old entry.now }
        ensures { LogReadmits PAGE D.page_count D.honest D.failures D.held entry.now self.old
            device.old result self.new device.new }
    {
        let mut bytes = [0u8; PAGE];
        match self.fetch_stored(device, entry, &mut bytes, None) {
            Fetched::Fault => {
                self.lose_page_of(entry);
                Readmitted::Fault
            }
            Fetched::Damaged => {
                self.lose_page_of(entry);
                Readmitted::Damaged
            }
            Fetched::Record(found) => self.enter_anew(entry, found),
        }
    }

    /// The newest live records of a set, at most `MAX_TAKEN`, newest first; they stay in the log. Each page that is not
    /// in memory is read. If one is lost, its live records are dropped; `AllocError` changes nothing.
    pub fn take_set<D: PageDevice<PAGE>>(
        &mut self,
        alloc: Global,
        device: &mut D,
        set: u32,
    ) -> Result<SetTaken, AllocError>
        requires page_size { IsPageSize PAGE }
        requires room { HasRoom (D.page_count device.old) self.old }
        ensures { LogTakes PAGE D.page_count D.honest D.failures D.held set self.old device.old result
            self.new device.new }
    {
        match self.gather(alloc, device, set)? {
            Gathered::Records(records) => Ok(SetTaken::Records(records)),
            Gathered::Lost(entry) => {
                self.lose_page_of(&entry);
                Ok(SetTaken::PageLost)
            }
        }
    }

    // The newest live records of a set, or an entry of it whose page is lost. A clause for each fact of which `take_set` puts its
    // answer together, on any device and on an honest one.
    fn gather<D: PageDevice<PAGE>>(
        &self,
        alloc: Global,
        device: &mut D,
        set: u32,
    ) -> Result<Gathered, AllocError>
        requires page_size { IsPageSize PAGE }
        requires room { HasRoom (D.page_count device.old) self.now }
        ensures reads { ReadsOrStops D.page_count D.honest D.failures D.held device.old
            (is_lost_page result) device.new }
        ensures its { IfOk result (IsToBeTaken self.now set) }
        ensures buffered { AreBuffered self.now (taken_entries self.now set) →
            device.new ≡ device.old }
        ensures gathers_at { IsTrue (D.honest device.old) →
            GathersAt PAGE (D.held device.old) self.now set (D.failures device.old) result
            (D.failures device.new) }
        ensures faults { IsTrue (D.honest device.old) →
            IsSpelledOn PAGE (D.held device.old) self.now →
            D.failures device.new ≡ faults_after (D.failures device.old) (is_lost_page result) }
        ensures gathers { IsTrue (D.honest device.old) →
            IsSpelledOn PAGE (D.held device.old) self.now →
            IfOk result (Gathers self.now set (live_on (D.held device.old) self.now)) }
    {
        let mut records = TakenRecords::new(alloc);
        let mut entries = self.index.entries_of(set);
        let mut bytes = [0u8; PAGE];
        for _ in 0..MAX_TAKEN {
            let Some(entry) = entries.next() else {
                return Ok(Gathered::Records(records));
            };
            let Some(taken) = self.copy(alloc, device, &entry, &mut bytes)? else {
                return Ok(Gathered::Lost(entry));
            };
            records.push(taken)?;
        }
        Ok(Gathered::Records(records))
    }

    // A copy of an entry's record, or nothing if its page is lost. A page that is read is read into these bytes.
    fn copy<D: PageDevice<PAGE>>(
        &self,
        alloc: Global,
        device: &mut D,
        entry: &Entry,
        bytes: &mut [u8; PAGE],
    ) -> Result<Option<TakenRecord>, AllocError>
        requires page_size { IsPageSize PAGE }
        requires room { HasRoom (D.page_count device.old) self.now }
        requires listed { Contains self.now.entries entry.now }
        ensures reads { ReadsOrStops D.page_count D.honest D.failures D.held device.old
            (is_missing result) device.new }
        ensures buffered { IsTrue (is_buffered self.now entry.now) → device.new ≡ device.old }
        ensures faults { IsTrue (D.honest device.old) →
            IsLiveOn PAGE (D.held device.old) self.now entry.now →
            D.failures device.new ≡ faults_after (D.failures device.old) (is_missing result) }
        ensures copies { IsTrue (D.honest device.old) →
            Copies PAGE (D.held device.old) self.now entry.now result }
    {
        let Fetched::Record(found) = self.fetch(device, entry, bytes, None) else {
            return Ok(None);
        };
        let current = RecordRef {
            key: found.key,
            value: found.value,
            expires: found.expires,
            prediction: entry.prediction.get(),
        };
        let stored = current.to_record(alloc)?;
        Ok(Some(TakenRecord {
            stored,
            place: entry.place,
            segment: self.number_of(entry.place.segment),
        }))
    }

    // Drops the entry of a record, and adds the record anew if there is a place for it.
    fn enter_anew(&mut self, entry: &Entry, found: RecordRef<'_>) -> Readmitted
        requires page_size { IsPageSize PAGE }
        requires listed { Contains self.old.entries entry.now }
        requires its { CanStandFor PAGE self.old.shape entry.now (record_shown found) }
        ensures no_fault { is_readmit_fault result ≡ false }
        ensures shape { self.new.shape ≡ self.old.shape }
        ensures enters { EntersAnew PAGE self.old entry.now (record_shown found.entry) result
            self.new }
        ensures spelled { (held : ℕ → Option (List ℕ)) → IsSpelledOn PAGE held self.old →
            IsSpelledOn PAGE held self.new }
        ensures shown { (held : ℕ → Option (List ℕ)) → live_on held self.new
            ≡ live_anew PAGE self.old entry.now (record_shown found.entry) result
            (live_on held self.old) }
    {
        self.drop_entry(entry);
        let anew = RecordRef {
            key: found.key,
            value: found.value,
            expires: found.expires,
            prediction: Prediction::ENTERING,
        };
        if self.enter(entry.set, entry.tag, anew) {
            Readmitted::Readmitted
        } else {
            Readmitted::Dropped
        }
    }

    // Drops the entries of an entry's page.
    fn lose_page_of(&mut self, entry: &Entry)
        requires listed { Contains self.old.entries entry.now }
        ensures shape { self.new.shape ≡ self.old.shape }
        ensures lost { self.new ≡ without_its_page self.old entry.now }
        ensures spelled { (held : ℕ → Option (List ℕ)) → IsSpelledOn PAGE held self.old →
            IsSpelledOn PAGE held self.new }
        ensures shown { (held : ℕ → Option (List ℕ)) → live_on held self.new
            ≡ live_without_page self.old entry.now (live_on held self.old) }
    {
        self.index.drop_page(entry.place.segment, entry.place.page);
    }
}
