// The records of a page in the making, in the bytes that they take on a page, without a header.
ghost use Rattle.std.specs.Prelude.{◌≡◌, ◌+◌, ◌<◌, [], ◌∷◌, ◌++◌, List, IsTrue, Some, length, take, slice_get, nat_le, All};
ghost use Rattle.record_pages.specs.Sizes.{room};
ghost use Rattle.record_pages.specs.Recs.{Rec, IsRecord, size, sizes, fit};
ghost use Rattle.record_pages.specs.Lent.{record_shown};
ghost use Rattle.record_pages.specs.PageText.{records_text};
ghost use Rattle.record_pages.specs.Reading.{records_of};
ghost use Rattle.record_pages.specs.Making.{IsInTheMaking};
ghost use Rattle.record_pages.specs.declared.form.RecordForm.TheVariants.{Timed};

use crate::bytes_out::put_record;
use crate::form::RecordForm;
use crate::object::PAGE_OVERHEAD;
use crate::record_ref::RecordRef;
use crate::records::{Records, record_there, records_in};
use std::marker::Model;

// The records pushed so far, in order: they fit on a set page. On a log page there are fewer, which its writer tests.
#[derive(Drop)]
pub(crate) struct PageBody<const PAGE: usize> {
    bytes: [u8; PAGE],
    used: usize,
    count: u16,
}

impl<const PAGE: usize> Model for PageBody<PAGE> {
    ghost Value = { List Rec };

    ghost view = { λ b. records_of Timed b.count b.bytes };

    ghost invariant = { λ b. IsInTheMaking PAGE b.bytes b.used b.count };
}

impl<const PAGE: usize> PageBody<PAGE> {
    // No records.
    pub(crate) fn new() -> Self
        ensures { result ≡ [] }
    {
        PageBody {
            bytes: [0; PAGE],
            used: 0,
            count: 0,
        }
    }

    // How many records there are.
    pub(crate) fn len(&self) -> u16
        ensures len { result ≡ length self.now }
        ensures fits { IsTrue (fit PAGE self.now) }
        ensures each { All IsRecord self.now }
    {
        self.count
    }

    // Drops the records.
    pub(crate) fn clear(&mut self)
        ensures { self.new ≡ [] }
    {
        self.used = 0;
        self.count = 0;
    }

    // Whether there is room for the bytes of a record more.
    pub(crate) fn has_room(&self, added: RecordRef<'_>) -> bool
        requires { IsRecord (record_shown added) }
        ensures { result
            ≡ nat_le (sizes (self.now ++ record_shown added.entry ∷ [])) (room PAGE) }
    {
        added.size() <= PAGE.saturating_sub(PAGE_OVERHEAD) - self.used
    }

    // Adds a record, which has to fit.
    pub(crate) fn push(&mut self, added: RecordRef<'_>)
        requires lawful { IsRecord (record_shown added) }
        requires fits { IsTrue (fit PAGE (self.old ++ record_shown added ∷ [])) }
        ensures { self.new ≡ self.old ++ record_shown added.entry ∷ [] }
    {
        self.used = put_record(&mut self.bytes, self.used, added);
        self.count += 1;
    }

    // The text of the records.
    pub(crate) fn text(&self) -> &[u8]
        ensures text { result.now ≡ records_text Timed self.now }
        ensures size { length result.now ≡ sizes self.now }
    {
        &self.bytes[..self.used]
    }

    // The record at a place, whose bytes begin so far on. It takes one step.
    pub(crate) fn there(&self, slot: usize, start: usize) -> RecordRef<'_>
        requires place { slot < length self.now }
        requires start { start ≡ sizes (take slot self.now) }
        ensures value { slice_get self.now slot ≡ Some (record_shown result) }
        ensures lawful { IsRecord (record_shown result) }
    {
        let bytes = &self.bytes[..];
        let (record, _) = record_there(RecordForm::Timed, &bytes[start..]);
        record
    }

    // A walk over the records so far.
    pub(crate) fn records(&self) -> Records<'_>
        ensures { result ≡ self.now }
    {
        records_in(RecordForm::Timed, self.count, &self.bytes)
    }
}
