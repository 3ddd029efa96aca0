// A set page that was read.
ghost use Rattle.std.specs.Prelude.{◌≡◌, IfSome, Some, length};
ghost use Rattle.record_pages.specs.PageText.{SetPageParts, SpellsSetPage, SetPageTextsDiffer};
ghost use Rattle.record_pages.specs.Reading.{set_form_of, set_page_at};

use crate::form::{PageForm, SetForm};
use crate::front::{u32_at, u64_at};
use crate::records::{Records, body_at};
use std::marker::Model;

/// The first four bytes of a set page: `KSE2`.
pub(crate) const SET_MAGIC: u32 = 0x4b53_4532;

// The first four bytes of a set page of at most `MAX_FORMER_RECORDS` records: `KSE1`.
const TIMED_SET_MAGIC: u32 = 0x4b53_4531;

// The first four bytes of a set page of as many records that have no expiry: `KSET`.
const LASTING_SET_MAGIC: u32 = 0x4b53_4554;

/// A set page that was read: its header, and its records, which lie in the bytes that were read. Pages of the two older
/// forms are read too.
#[derive(Drop)]
pub struct SetPage<'a> {
    set: u32,
    write: u64,
    records: Records<'a>,
}

impl<'a> Model for SetPage<'a> {
    ghost Value = { SetPageParts };

    ghost view = { λ p. record { set = p.set; write = p.write; records = p.records } };
}

impl<'a> SetPage<'a> {
    /// The set page that these bytes spell, or nothing if they spell none.
    pub fn read<const PAGE: usize>(bytes: &'a [u8; PAGE]) -> Option<SetPage<'a>>
        ensures exact { result ≡ set_page_at bytes.entry.now }
        ensures found { IfSome result (SpellsSetPage PAGE bytes.entry.now) }
        ensures only { (p : SetPageParts) → SpellsSetPage PAGE bytes.entry.now p → result ≡ Some p }
        ensures unique { SetPageTextsDiffer PAGE }
    {
        set_page_at(bytes)
    }

    /// The number of its set in the lane.
    pub fn set(&self) -> u32
        ensures { result ≡ self.now.set }
    {
        self.set
    }

    /// The number of the write that wrote it.
    pub fn write(&self) -> u64
        ensures { result ≡ self.now.write }
    {
        self.write
    }

    /// A walk over its records.
    pub fn records(&self) -> Records<'a>
        ensures { result ≡ self.now.records }
    {
        self.records.again()
    }
}

// The set page, field by field.
#[tactic(auto, unfolding(crate::specs::Reading::set_page_at))]
fn set_page_at(bytes: &[u8]) -> Option<SetPage<'_>>
    ensures exact { result ≡ set_page_at bytes.now }
    ensures found { IfSome result (SpellsSetPage (length bytes.now) bytes.now) }
{
    let (magic, rest) = u32_at(bytes)?;
    let form = form_of(magic)?;
    let (set, rest) = u32_at(rest)?;
    let (write, rest) = u64_at(rest)?;
    let records = body_at(PageForm::Set(form), rest)?;
    Some(SetPage {
        set,
        write,
        records,
    })
}

// The form of a set page that begins so.
fn form_of(magic: u32) -> Option<SetForm>
    ensures { result ≡ set_form_of magic }
{
    match magic {
        SET_MAGIC => Some(SetForm::Large),
        TIMED_SET_MAGIC => Some(SetForm::Timed),
        LASTING_SET_MAGIC => Some(SetForm::Lasting),
        _ => None,
    }
}
