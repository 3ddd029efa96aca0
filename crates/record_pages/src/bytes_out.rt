// The texts of a page, written into its bytes from left to right.
ghost use Rattle.std.specs.Prelude.{◌≡◌, ◌≤◌, ◌+◌, ◌-◌, ◌++◌, length, replicate, take, All};
ghost use Rattle.std.specs.Int.{w16, to_be_bytes};
ghost use Rattle.record_pages.specs.Recs.{IsRecord, size, sizes};
ghost use Rattle.record_pages.specs.Lent.{record_shown};
ghost use Rattle.record_pages.specs.PageText.{record_text, records_text, set_head, log_head};
ghost use Rattle.record_pages.specs.declared.form.RecordForm.TheVariants.{Timed};
ghost use Rattle.record_pages.specs.declared.form.SetForm.TheVariants.{Large};

use crate::log_page::LOG_MAGIC;
use crate::record::Record;
use crate::record_ref::RecordRef;
use crate::set_page::SET_MAGIC;

// Writes bytes at a place, and answers the place after them.
pub(crate) fn put(into: &mut [u8], at: usize, bytes: &[u8]) -> usize
    requires { at + length bytes.now ≤ length into.old }
    ensures text { take result into.new ≡ take at into.old ++ bytes.now }
    ensures end { result ≡ at + length bytes.now }
{
    let end = at + bytes.len();
    into[at..end].copy_from_slice(bytes);
    end
}

// Writes a record at a place, and answers the place after it.
pub(crate) fn put_record(into: &mut [u8], at: usize, lent: RecordRef<'_>) -> usize
    requires lawful { IsRecord (record_shown lent) }
    requires room { at + size (record_shown lent) ≤ length into.old }
    ensures text { take result into.new
        ≡ take at into.old ++ record_text Timed (record_shown lent.entry) }
    ensures end { result ≡ at + size (record_shown lent.entry) }
{
    let key = lent.key;
    let value = lent.value;
    let value_len = (value.len() as u16).to_be_bytes();
    let lengths = [key.len() as u8, value_len[0], value_len[1], lent.prediction];
    let at = put(into, at, &lengths);
    let at = put(into, at, &lent.expires.to_be_bytes());
    let at = put(into, at, key);
    put(into, at, value)
}

// Writes records at a place, one after the other, and answers the place after them.
pub(crate) fn put_records(into: &mut [u8], at: usize, records: &[Record]) -> usize
    requires { at + sizes records.now ≤ length into.old }
    ensures text { take result into.new ≡ take at into.old ++ records_text Timed records.now }
    ensures end { result ≡ at + sizes records.now }
    ensures each { All IsRecord records.now }
{
    let mut end = at;
    for record in records {
        end = put_record(into, end, record.lent());
    }
    end
}

// Writes the header of a set page, and answers the place after it.
pub(crate) fn put_set_header(into: &mut [u8], set: u32, write: u64, count: u16) -> usize
    requires { 18 ≤ length into.old }
    ensures text { take result into.new ≡ set_head Large set write ++ to_be_bytes w16 count }
    ensures end { result ≡ 18 }
{
    let at = put(into, 0, &SET_MAGIC.to_be_bytes());
    let at = put(into, at, &set.to_be_bytes());
    let at = put(into, at, &write.to_be_bytes());
    put(into, at, &count.to_be_bytes())
}

// Writes the header of a log page, and answers the place after it.
pub(crate) fn put_log_header(into: &mut [u8], segment: u64, page: u16, count: u16) -> usize
    requires { 16 ≤ length into.old }
    ensures text { take result into.new ≡ log_head Timed segment page ++ to_be_bytes w16 count }
    ensures end { result ≡ 16 }
{
    let at = put(into, 0, &LOG_MAGIC.to_be_bytes());
    let at = put(into, at, &segment.to_be_bytes());
    let at = put(into, at, &page.to_be_bytes());
    put(into, at, &count.to_be_bytes())
}

// Writes zeros from a place to the end.
pub(crate) fn zero_from(into: &mut [u8], at: usize)
    requires { at ≤ length into.old }
    ensures { into.new ≡ take at into.old ++ replicate (length into.old - at) 0 }
{
    into[at..].fill(0);
}
