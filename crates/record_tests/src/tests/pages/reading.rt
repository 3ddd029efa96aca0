//! Pages that are read, and each reason for which one is refused.
ghost use Rattle.record_pages.specs.Sizes.{IsPageSize};

use super::rows::{
    EXPIRES, FORMER_SET_ROW, LASTING_LOG_ROW, LASTING_SET_ROW, LOG_ROW, SET_ROW, page_of,
};
use record_pages::{LogPage, NEVER, Records, SetPage};

/// Whether these are one record: key `a`, a value of this length that expires then, prediction 6.
fn is_one(records: Records<'_>, value_len: usize, expires: u64) -> bool {
    if records.len() != 1 {
        return false;
    }
    let Some(first) = records.at(0) else {
        return false;
    };
    first.key == b"a".as_slice()
        && first.value.len() == value_len
        && first.expires == expires
        && first.prediction == 6
}

/// Whether this is set page 3, of write 1, with one record, and no log page.
fn is_the_set_page(page: &[u8; 256], value_len: usize, expires: u64) -> bool {
    let Some(read) = SetPage::read(page) else {
        return false;
    };
    read.set() == 3 && read.write() == 1 && is_one(read.records(), value_len, expires)
}

/// Whether this is page 0 of segment 0, with one record.
fn is_the_log_page(page: &[u8; 256], value_len: usize, expires: u64) -> bool {
    let Some(read) = LogPage::read(page) else {
        return false;
    };
    read.segment() == 0 && read.page() == 0 && is_one(read.records(), value_len, expires)
}

#[test]
fn pages_of_one_record_are_read(rt: HostRuntime) {
    let page = page_of::<256>(&SET_ROW);
    assert!(rt; is_the_set_page(&page, 2, NEVER) && LogPage::read(&page).is_none());
    let page = page_of::<256>(&LOG_ROW);
    assert!(rt; is_the_log_page(&page, 2, EXPIRES) && SetPage::read(&page).is_none());
}

// Records of a page of the oldest form never expire.
#[test]
fn pages_of_the_older_forms_are_read(rt: HostRuntime) {
    assert!(rt; is_the_set_page(&page_of::<256>(&FORMER_SET_ROW), 2, EXPIRES));
    let page = page_of::<256>(&LASTING_SET_ROW);
    assert!(rt; is_the_set_page(&page, 2, NEVER) && LogPage::read(&page).is_none());
    let page = page_of::<256>(&LASTING_LOG_ROW);
    assert!(rt; is_the_log_page(&page, 2, NEVER) && SetPage::read(&page).is_none());
}

/// Whether the page of a row with one byte changed is refused.
fn is_refused<const PAGE: usize>(front: &[u8], at: usize, byte: u8) -> bool
    requires { IsPageSize PAGE }
{
    let mut page = page_of::<PAGE>(front);
    if at < PAGE {
        page[at] = byte;
    }
    SetPage::read(&page).is_none() && LogPage::read(&page).is_none()
}

/// Whether a page of a row is read as it is and with other bytes that may stand there, and each byte that may not is
/// refused: the magic, a second record where none is, no key, a value of 2,050 bytes, prediction 8, a byte after the
/// record and the last one. The row's header ends before `body`, and its record, of 7 or 15 bytes, at `end`.
fn are_refused<const PAGE: usize>(front: &[u8], body: usize, end: usize) -> bool
    requires small { (0 < body) × (body < 64) }
    requires page_size { IsPageSize PAGE }
{
    !is_refused::<PAGE>(front, 0, 0x4b)
        && !is_refused::<PAGE>(front, body + 3, 7)
        && is_refused::<PAGE>(front, 0, 0x4c)
        && is_refused::<PAGE>(front, 3, 0x33)
        && is_refused::<PAGE>(front, body - 1, 2)
        && is_refused::<PAGE>(front, body, 0)
        && is_refused::<PAGE>(front, body + 1, 8)
        && is_refused::<PAGE>(front, body + 3, 8)
        && is_refused::<PAGE>(front, end, 1)
        && is_refused::<PAGE>(front, PAGE - 1, 1)
}

ghost use Rattle.std.specs.Prelude.{◌<◌, ◌≤◌, length};

#[test]
fn pages_that_are_no_text_are_refused(rt: HostRuntime) {
    assert!(rt;
        are_refused::<256>(&SET_ROW, 18, 33)
            && are_refused::<4096>(&SET_ROW, 18, 33)
            && are_refused::<256>(&LOG_ROW, 16, 31)
            && are_refused::<4096>(&LOG_ROW, 16, 31)
            && are_refused::<256>(&FORMER_SET_ROW, 18, 33)
            && are_refused::<256>(&LASTING_SET_ROW, 18, 25)
            && are_refused::<256>(&LASTING_LOG_ROW, 16, 23)
    );
}

/// Whether a set page with a value of this many bytes, all zero, is read.
fn reads_a_value_of(high: u8, low: u8) -> bool {
    let mut front = SET_ROW;
    front[19] = high;
    front[20] = low;
    SetPage::read(&page_of::<4096>(&front)).is_some()
}

/// Whether a log page of 256 bytes with a value of this many bytes is read.
fn reads_up_to(len: u8) -> bool {
    let mut front = LOG_ROW;
    front[18] = len;
    is_the_log_page(&page_of::<256>(&front), len as usize, EXPIRES)
}

/// The same of a page of the older form.
fn reads_a_lasting_value_of(len: u8) -> bool {
    let mut front = LASTING_LOG_ROW;
    front[18] = len;
    is_the_log_page(&page_of::<256>(&front), len as usize, NEVER)
}

// A value of 2,048 bytes is read and one of 2,049 is refused; a value may end at the page's last byte, and none passes
// it.
#[test]
fn values_have_their_greatest_length(rt: HostRuntime) {
    assert!(rt;
        reads_a_value_of(0x08, 0x00)
            && !reads_a_value_of(0x08, 0x01)
            && reads_up_to(227)
            && !reads_up_to(228)
            && reads_a_lasting_value_of(235)
            && !reads_a_lasting_value_of(236)
    );
}

/// A page with this head and this many records, each of these bytes.
fn crowded(head: &[u8], repeated: &[u8], count: u8) -> [u8; 4096]
    requires head { length head.now ≤ 16 }
    requires some { 0 < length repeated.now }
{
    let start = head.len() + 2;
    let mut page = page_of::<4096>(head);
    page[start - 1] = count;
    for (at, byte) in page.iter_mut().enumerate() {
        if at >= start && (at - start) / repeated.len() < count as usize {
            *byte = repeated[(at - start) % repeated.len()];
        }
    }
    page
}

// A record of key `a` and no value, which expires at 1, and one that never expires.
static SMALL: [u8; 13] = [1, 0, 0, 6, 0, 0, 0, 0, 0, 0, 0, 1, 0x61];

static LASTING_SMALL: [u8; 5] = [1, 0, 0, 6, 0x61];

/// Whether a set page with the head of a row is read with this many records, and no page with one more is.
fn is_set_limit(row: &[u8], repeated: &[u8], count: u8) -> bool
    requires row { 16 ≤ length row.now }
    requires some { 0 < length repeated.now }
    requires count { count < 255 }
{
    let head = &row[..16];
    let full = crowded(head, repeated, count);
    let Some(read) = SetPage::read(&full) else {
        return false;
    };
    read.records().len() == count as usize
        && SetPage::read(&crowded(head, repeated, count + 1)).is_none()
}

/// The same of a log page.
fn is_log_limit(row: &[u8], repeated: &[u8], count: u8) -> bool
    requires row { 14 ≤ length row.now }
    requires some { 0 < length repeated.now }
    requires count { count < 255 }
{
    let head = &row[..14];
    let full = crowded(head, repeated, count);
    let Some(read) = LogPage::read(&full) else {
        return false;
    };
    read.records().len() == count as usize
        && LogPage::read(&crowded(head, repeated, count + 1)).is_none()
}

// Records of 13 bytes and of 5 leave room on a page of 4,096 bytes, so that their number alone is too great.
#[test]
fn pages_of_each_form_have_their_limit(rt: HostRuntime) {
    assert!(rt;
        is_set_limit(&SET_ROW, &SMALL, 128)
            && is_set_limit(&FORMER_SET_ROW, &SMALL, 64)
            && is_set_limit(&LASTING_SET_ROW, &LASTING_SMALL, 64)
            && is_log_limit(&LOG_ROW, &SMALL, 64)
            && is_log_limit(&LASTING_LOG_ROW, &LASTING_SMALL, 64)
    );
}
