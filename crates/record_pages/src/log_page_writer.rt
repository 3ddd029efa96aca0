// A log page in the making.
ghost use Rattle.std.specs.Prelude.{◌≡◌, ◌↔◌, [], ◌∷◌, ◌++◌, List, IsTrue, IfSome, length, slice_get, All};
ghost use Rattle.std.specs.Option.{option_map};
ghost use Rattle.record_pages.specs.Sizes.{IsPageSize};
ghost use Rattle.record_pages.specs.Recs.{Rec, IsRecord, fit_log};
ghost use Rattle.record_pages.specs.Lent.{record_shown};
ghost use Rattle.record_pages.specs.PageText.{log_page_text, SpellsLogPage};
ghost use Rattle.record_pages.specs.Making.{IsLogInTheMaking};

use crate::bytes_out::{put, put_log_header, zero_from};
use crate::object::MAX_LOG_RECORDS;
use crate::page_body::PageBody;
use crate::record_ref::RecordRef;
use crate::records::Records;
use std::marker::Model;

/// A log page in the making: its records so far, without a header. No call takes memory.
#[derive(Drop)]
pub struct LogPageWriter<const PAGE: usize> {
    body: PageBody<PAGE>,
    // Where the bytes of each record begin.
    starts: [u32; MAX_LOG_RECORDS],
}

impl<const PAGE: usize> Model for LogPageWriter<PAGE> {
    ghost Value = { List Rec };

    ghost view = { λ w. w.body };

    ghost invariant = { λ w. IsLogInTheMaking w.body w.starts };
}

impl<const PAGE: usize> LogPageWriter<PAGE> {
    /// A page with no records.
    pub fn new() -> Self
        ensures { result ≡ [] }
    {
        LogPageWriter {
            body: PageBody::new(),
            starts: [0; MAX_LOG_RECORDS],
        }
    }

    /// How many records there are.
    pub fn len(&self) -> usize
        ensures len { result ≡ length self.now }
        ensures fits { IsTrue (fit_log PAGE self.now) }
        ensures each { All IsRecord self.now }
    {
        self.body.len() as usize
    }

    /// Whether there are no records.
    pub fn is_empty(&self) -> bool
        ensures { IsTrue result ↔ (self.now ≡ []) }
    {
        self.body.len() == 0
    }

    /// Whether a record more still fits.
    pub fn fits(&self, added: RecordRef<'_>) -> bool
        requires { IsRecord (record_shown added) }
        ensures { result ≡ fit_log PAGE (self.now ++ record_shown added.entry ∷ []) }
    {
        self.body.has_room(added) && self.len() < MAX_LOG_RECORDS
    }

    /// Adds a record after the others. It has to fit.
    pub fn push(&mut self, added: RecordRef<'_>)
        requires lawful { IsRecord (record_shown added) }
        requires fits { IsTrue (fit_log PAGE (self.old ++ record_shown added ∷ [])) }
        ensures { self.new ≡ self.old ++ record_shown added.entry ∷ [] }
    {
        let slot = self.body.len() as usize;
        self.starts[slot] = self.body.text().len() as u32;
        self.body.push(added);
    }

    /// Drops all records.
    pub fn clear(&mut self)
        ensures { self.new ≡ [] }
    {
        self.body.clear();
    }

    /// The record that lies this many places on, or nothing if there are fewer. It takes one step.
    pub fn at(&self, slot: usize) -> Option<RecordRef<'_>>
        ensures value { option_map record_shown result ≡ slice_get self.now slot }
        ensures lawful { IfSome result (λ r. IsRecord (record_shown r)) }
    {
        if slot >= self.body.len() as usize {
            return None;
        }
        Some(self.body.there(slot, self.starts[slot] as usize))
    }

    /// A walk over the records so far.
    pub fn records(&self) -> Records<'_>
        ensures { result ≡ self.now }
    {
        self.body.records()
    }

    /// Writes the text of the log page with these records under this header.
    pub fn text(&self, segment: u64, page_number: u16, page: &mut [u8; PAGE])
        requires { IsPageSize PAGE }
        ensures text { page.new ≡ log_page_text PAGE segment page_number self.now }
        ensures spelled { SpellsLogPage PAGE page.new
            (record { segment = segment; page = page_number; records = self.now }) }
    {
        let at = put_log_header(page, segment, page_number, self.body.len());
        let at = put(page, at, self.body.text());
        zero_from(page, at);
    }
}
