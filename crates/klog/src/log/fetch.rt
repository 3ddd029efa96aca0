// Reading the record of an entry.
ghost use Rattle.std.specs.Prelude.{◌≡◌, ◌↔◌, ℕ, List, Option, IfSome, IfNone, IsTrue, Contains, false};
ghost use Rattle.std.specs.Option.{option_map};
ghost use Rattle.page_device.specs.Lending.{OnlyReads};
ghost use Rattle.record_pages.specs.Sizes.{IsPageSize};
ghost use Rattle.record_pages.specs.Recs.{IsRecord};
ghost use Rattle.record_pages.specs.Lent.{record_shown};
ghost use Rattle.record_pages.specs.Reading.{log_page_at};
ghost use Rattle.klog.specs.Buffer.{record_in};
ghost use Rattle.klog.specs.Names.{HasRoom};
ghost use Rattle.klog.specs.Shown.{shown_on, record_on};
ghost use Rattle.klog.specs.Known.{AreHeldBy, is_buffered, IsBufferOf, IsPageKnown, IsHad};
ghost use Rattle.klog.specs.Fetch.{IsPlaceOf, is_fetch_fault, IsItsOwn, stored_on, FetchGives};

use super::KLog;
use crate::buffer::SegmentBuffer;
use crate::fetched::Fetched;
use klog_index::Entry;
use page_device::PageDevice;
use record_pages::{LogPage, PAGE_OVERHEAD, RecordRef};
use set_hash::place;

impl<const PAGE: usize> KLog<PAGE> {
    // The record of an entry: out of a buffer, or off its page, which is read into these bytes.
    pub(super) fn fetch<'a, D: PageDevice<PAGE>>(
        &'a self,
        device: &mut D,
        entry: &Entry,
        bytes: &'a mut [u8; PAGE],
        asked: Option<&[u8]>,
    ) -> Fetched<'a>
        requires page_size { IsPageSize PAGE }
        requires room { HasRoom (D.page_count device.old) self.now }
        requires listed { Contains self.now.entries entry.now }
        requires asked { IfSome asked (λ key. IsPlaceOf self.now.shape key.now entry.now) }
        ensures reads { OnlyReads D.page_count D.honest D.failures D.held device.old (is_fetch_fault result)
            device.new }
        ensures buffered { IsTrue (is_buffered self.entry.now entry.now) → device.new ≡ device.old }
        ensures its { IsItsOwn PAGE self.entry.now.shape entry.now result }
        ensures gives { (known : ℕ → Option (List ℕ)) → AreHeldBy D.honest D.held device.old known →
            IsHad known self.entry.now entry.now → FetchGives PAGE self.entry.now.shape entry.now
            (shown_on known self.entry.now entry.now) result }
    {
        match self.buffer_of(entry) {
            Some(buffer) => self.fetch_buffered(buffer, entry, asked),
            None => self.fetch_stored(device, entry, bytes, asked),
        }
    }

    // The buffer that holds the segment of an entry, if one does.
    pub(super) fn buffer_of(&self, entry: &Entry) -> Option<&SegmentBuffer<PAGE>>
        requires { Contains self.now.entries entry.now }
        ensures some { IfSome result (λ buffer. IsBufferOf buffer.now.pages self.now entry.now) }
        ensures none { IfNone result (is_buffered self.now entry.now ≡ false) }
    {
        let number = self.number_of(entry.place.segment);
        if number == self.filled_number() {
            return Some(&self.filling);
        }
        if self.is_flushing && number == self.flushed_number() {
            return Some(&self.flushing);
        }
        None
    }

    // The record of an entry out of the buffer that holds its segment.
    pub(super) fn fetch_buffered<'a>(
        &self,
        buffer: &'a SegmentBuffer<PAGE>,
        entry: &Entry,
        asked: Option<&[u8]>,
    ) -> Fetched<'a>
        requires page_size { IsPageSize PAGE }
        requires buffer { IsBufferOf buffer.now.pages self.now entry.now }
        requires asked { IfSome asked (λ key. IsPlaceOf self.now.shape key.now entry.now) }
        ensures no_fault { is_fetch_fault result ≡ false }
        ensures its { IsItsOwn PAGE self.now.shape entry.now result }
        ensures gives { (known : ℕ → Option (List ℕ)) → FetchGives PAGE self.now.shape entry.now
            (shown_on known self.now entry.now) result }
    {
        self.checked(entry, record_in(buffer, entry), asked)
    }

    // The record of an entry whose segment is on the device, off its page, which is read into these bytes.
    pub(super) fn fetch_stored<'a, D: PageDevice<PAGE>>(
        &self,
        device: &mut D,
        entry: &Entry,
        bytes: &'a mut [u8; PAGE],
        asked: Option<&[u8]>,
    ) -> Fetched<'a>
        requires page_size { IsPageSize PAGE }
        requires room { HasRoom (D.page_count device.old) self.now }
        requires listed { Contains self.now.entries entry.now }
        requires asked { IfSome asked (λ key. IsPlaceOf self.now.shape key.now entry.now) }
        ensures reads { OnlyReads D.page_count D.honest D.failures D.held device.old (is_fetch_fault result)
            device.new }
        ensures its { IsItsOwn PAGE self.now.shape entry.now result }
        ensures gives { (known : ℕ → Option (List ℕ)) → AreHeldBy D.honest D.held device.old known →
            IsPageKnown known self.now entry.now → FetchGives PAGE self.now.shape entry.now
            (stored_on known self.now entry.now) result }
    {
        let number = self.number_of(entry.place.segment);
        let page = u32::from(entry.place.page);
        prove!(page < self.layout.segment_pages);
        let Ok(()) = device.read(self.device_page(number, page), bytes) else {
            return Fetched::Fault;
        };
        self.checked(entry, record_on(bytes, number, entry), asked)
    }

    // The record of an entry, if there is one and it has the entry's set and tag and a record's size.
    fn checked<'a>(
        &self,
        entry: &Entry,
        found: Option<RecordRef<'a>>,
        asked: Option<&[u8]>,
    ) -> Fetched<'a>
        requires page_size { IsPageSize PAGE }
        requires asked { IfSome asked (λ key. IsPlaceOf self.now.shape key.now entry.now) }
        requires lawful { IfSome found (λ r. IsRecord (record_shown r)) }
        ensures no_fault { is_fetch_fault result ≡ false }
        ensures its { IsItsOwn PAGE self.now.shape entry.now result }
        ensures gives { FetchGives PAGE self.now.shape entry.now
            (option_map record_shown found.entry) result }
    {
        let Some(found) = found else {
            return Fetched::Damaged;
        };
        if !self.belongs(entry, found.key, asked) || found.size() > PAGE - PAGE_OVERHEAD {
            return Fetched::Damaged;
        }
        Fetched::Record(found)
    }

    // Whether a record with this key has the entry's set and tag. Of the key that is asked for that is known, and no
    // hash is computed.
    fn belongs(&self, entry: &Entry, key: &[u8], asked: Option<&[u8]>) -> bool
        requires asked { IfSome asked (λ key. IsPlaceOf self.now.shape key.now entry.now) }
        ensures { IsTrue result ↔ IsPlaceOf self.now.shape key.now entry.now }
    {
        if let Some(asked) = asked {
            if key == asked {
                return true;
            }
        }
        let placed = place(&self.layout, key);
        placed.set == entry.set && placed.tag == entry.tag
    }
}

// The record in an entry's slot of a page, if that is the page of this segment.
#[tactic(auto, unfolding(crate::specs::Shown::record_on))]
fn record_on<'a, const PAGE: usize>(
    bytes: &'a [u8; PAGE],
    segment: u64,
    entry: &Entry,
) -> Option<RecordRef<'a>>
    ensures value { option_map record_shown result
        ≡ record_on segment entry.now.place.page entry.now.place.slot (log_page_at bytes.entry.now) }
    ensures lawful { IfSome result (λ r. IsRecord (record_shown r)) }
{
    let Some(page) = LogPage::read(bytes) else {
        return None;
    };
    if page.segment() != segment || page.page() != u16::from(entry.place.page) {
        return None;
    }
    page.records().at(entry.place.slot as usize)
}

// The record in an entry's slot of a segment in the making.
fn record_in<'a, const PAGE: usize>(
    buffer: &'a SegmentBuffer<PAGE>,
    entry: &Entry,
) -> Option<RecordRef<'a>>
    requires { IsPageSize PAGE }
    ensures value { option_map record_shown result
        ≡ record_in buffer.entry.now.pages entry.now.place.page entry.now.place.slot }
    ensures lawful { IfSome result (λ r. IsRecord (record_shown r)) }
{
    let Some(page) = buffer.page(entry.place.page as usize) else {
        return None;
    };
    page.at(entry.place.slot as usize)
}
