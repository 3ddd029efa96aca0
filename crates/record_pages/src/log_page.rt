// A log page that was read.
ghost use Rattle.std.specs.Prelude.{◌≡◌, IfSome, Some, length};
ghost use Rattle.record_pages.specs.PageText.{LogPageParts, SpellsLogPage, LogPageTextsDiffer};
ghost use Rattle.record_pages.specs.Reading.{log_form_of, log_page_at};

use crate::form::{PageForm, RecordForm};
use crate::front::{u16_at, u32_at, u64_at};
use crate::records::{Records, body_at};
use std::marker::Model;

/// The first four bytes of a log page: `KLO1`.
pub(crate) const LOG_MAGIC: u32 = 0x4b4c_4f31;

// The first four bytes of a log page whose records have no expiry: `KLOG`.
const LASTING_LOG_MAGIC: u32 = 0x4b4c_4f47;

/// A log page that was read: its header, and its records, which lie in the bytes that were read.
#[derive(Drop)]
pub struct LogPage<'a> {
    segment: u64,
    page: u16,
    records: Records<'a>,
}

impl<'a> Model for LogPage<'a> {
    ghost Value = { LogPageParts };

    ghost view = { λ p. record { segment = p.segment; page = p.page; records = p.records } };
}

impl<'a> LogPage<'a> {
    /// The log page that these bytes spell, or nothing if they spell none.
    pub fn read<const PAGE: usize>(bytes: &'a [u8; PAGE]) -> Option<LogPage<'a>>
        ensures exact { result ≡ log_page_at bytes.entry.now }
        ensures found { IfSome result (SpellsLogPage PAGE bytes.entry.now) }
        ensures only { (p : LogPageParts) → SpellsLogPage PAGE bytes.entry.now p → result ≡ Some p }
        ensures unique { LogPageTextsDiffer PAGE }
    {
        log_page_at(bytes)
    }

    /// The number of its segment.
    pub fn segment(&self) -> u64
        ensures { result ≡ self.now.segment }
    {
        self.segment
    }

    /// Its place in the segment.
    pub fn page(&self) -> u16
        ensures { result ≡ self.now.page }
    {
        self.page
    }

    /// A walk over its records.
    pub fn records(&self) -> Records<'a>
        ensures { result ≡ self.now.records }
    {
        self.records.again()
    }
}

// The log page, field by field.
#[tactic(auto, unfolding(crate::specs::Reading::log_page_at))]
fn log_page_at(bytes: &[u8]) -> Option<LogPage<'_>>
    ensures exact { result ≡ log_page_at bytes.now }
    ensures found { IfSome result (SpellsLogPage (length bytes.now) bytes.now) }
{
    let (magic, rest) = u32_at(bytes)?;
    let form = form_of(magic)?;
    let (segment, rest) = u64_at(rest)?;
    let (page, rest) = u16_at(rest)?;
    let records = body_at(PageForm::Log(form), rest)?;
    Some(LogPage {
        segment,
        page,
        records,
    })
}

// The form of a log page that begins so.
fn form_of(magic: u32) -> Option<RecordForm>
    ensures { result ≡ log_form_of magic }
{
    match magic {
        LOG_MAGIC => Some(RecordForm::Timed),
        LASTING_LOG_MAGIC => Some(RecordForm::Lasting),
        _ => None,
    }
}
