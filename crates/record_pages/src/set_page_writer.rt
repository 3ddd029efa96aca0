// A set page in the making.
ghost use Rattle.std.specs.Prelude.{◌≡◌, ◌↔◌, [], ◌∷◌, ◌++◌, List, IsTrue, length, All};
ghost use Rattle.record_pages.specs.Sizes.{IsPageSize};
ghost use Rattle.record_pages.specs.Recs.{Rec, IsRecord, fit};
ghost use Rattle.record_pages.specs.Lent.{record_shown};
ghost use Rattle.record_pages.specs.PageText.{set_page_text, SpellsSetPage};

use crate::bytes_out::{put, put_set_header, zero_from};
use crate::object::MAX_SET_RECORDS;
use crate::page_body::PageBody;
use crate::record_ref::RecordRef;
use crate::records::Records;
use std::marker::Model;

/// A set page in the making: its records so far, without a header. No call takes memory.
#[derive(Drop)]
pub struct SetPageWriter<const PAGE: usize> {
    body: PageBody<PAGE>,
}

impl<const PAGE: usize> Model for SetPageWriter<PAGE> {
    ghost Value = { List Rec };

    ghost view = { λ w. w.body };
}

impl<const PAGE: usize> SetPageWriter<PAGE> {
    /// A page with no records.
    pub fn new() -> Self
        ensures { result ≡ [] }
    {
        SetPageWriter {
            body: PageBody::new(),
        }
    }

    /// How many records there are.
    pub fn len(&self) -> usize
        ensures len { result ≡ length self.now }
        ensures fits { IsTrue (fit PAGE self.now) }
        ensures each { All IsRecord self.now }
    {
        self.body.len() as usize
    }

    /// Whether there are no records.
    pub fn is_empty(&self) -> bool
        ensures { IsTrue result ↔ (self.now ≡ []) }
    {
        self.body.len() == 0
    }

    /// Whether a record more still fits.
    pub fn fits(&self, added: RecordRef<'_>) -> bool
        requires { IsRecord (record_shown added) }
        ensures { result ≡ fit PAGE (self.now ++ record_shown added.entry ∷ []) }
    {
        self.body.has_room(added) && self.len() < MAX_SET_RECORDS
    }

    /// Adds a record after the others. It has to fit.
    pub fn push(&mut self, added: RecordRef<'_>)
        requires lawful { IsRecord (record_shown added) }
        requires fits { IsTrue (fit PAGE (self.old ++ record_shown added ∷ [])) }
        ensures { self.new ≡ self.old ++ record_shown added.entry ∷ [] }
    {
        self.body.push(added);
    }

    /// A walk over the records so far.
    pub fn records(&self) -> Records<'_>
        ensures { result ≡ self.now }
    {
        self.body.records()
    }

    /// Writes the text of the set page with these records under this header.
    pub fn text(&self, set: u32, write: u64, page: &mut [u8; PAGE])
        requires { IsPageSize PAGE }
        ensures text { page.new ≡ set_page_text PAGE set write self.now }
        ensures spelled { SpellsSetPage PAGE page.new
            (record { set = set; write = write; records = self.now }) }
    {
        let at = put_set_header(page, set, write, self.body.len());
        let at = put(page, at, self.body.text());
        zero_from(page, at);
    }
}
