// Records that are written onto a page all at once.
ghost use Rattle.std.specs.Prelude.{◌≡◌, ◌≤◌, IsTrue, length};
ghost use Rattle.record_pages.specs.Sizes.{IsPageSize, max_log_records};
ghost use Rattle.record_pages.specs.Recs.{fit};
ghost use Rattle.record_pages.specs.PageText.{set_page_text, log_page_text, SpellsSetPage, SpellsLogPage};

use crate::bytes_out::{put_log_header, put_records, put_set_header, zero_from};
use crate::object::{MAX_SET_RECORDS, PAGE_OVERHEAD};
use crate::record::Record;

/// Whether the records fit together on a set page of `PAGE` bytes. A log page takes them too if there are at most
/// `MAX_LOG_RECORDS` of them.
pub fn fits<const PAGE: usize>(records: &[Record]) -> bool
    ensures { result ≡ fit PAGE records.now }
{
    let mut room = PAGE.saturating_sub(PAGE_OVERHEAD);
    for record in records {
        let size = record.size();
        if size > room {
            return false;
        }
        room -= size;
    }
    records.len() <= MAX_SET_RECORDS
}

/// Writes the text of the set page with these records.
pub fn encode_set_page<const PAGE: usize>(
    set: u32,
    write: u64,
    records: &[Record],
    page: &mut [u8; PAGE],
)
    requires page_size { IsPageSize PAGE }
    requires fits { IsTrue (fit PAGE records.now) }
    ensures text { page.new ≡ set_page_text PAGE set write records.now }
    ensures spelled { SpellsSetPage PAGE page.new
        (record { set = set; write = write; records = records.now }) }
{
    let at = put_set_header(page, set, write, records.len() as u16);
    let at = put_records(page, at, records);
    zero_from(page, at);
}

/// Writes the text of the log page with these records, at most `MAX_LOG_RECORDS`.
pub fn encode_log_page<const PAGE: usize>(
    segment: u64,
    page_number: u16,
    records: &[Record],
    page: &mut [u8; PAGE],
)
    requires page_size { IsPageSize PAGE }
    requires fits { IsTrue (fit PAGE records.now) }
    requires few { length records.now ≤ max_log_records }
    ensures text { page.new ≡ log_page_text PAGE segment page_number records.now }
    ensures spelled { SpellsLogPage PAGE page.new
        (record { segment = segment; page = page_number; records = records.now }) }
{
    let at = put_log_header(page, segment, page_number, records.len() as u16);
    let at = put_records(page, at, records);
    zero_from(page, at);
}
