//! Records and pages of the tests, and the worked pages in bytes, of each form.
use record_pages::{Key, NEVER, Prediction, Record, TimedValue, Value};
use std::alloc::Global;
use std::test::Fail;

/// A record: its key, its value and its prediction.
pub type Row = (&'static [u8], &'static [u8], u8);

/// When the value of a record of the tests expires.
pub const EXPIRES: u64 = 0x0102_0304_0506_0708;

/// Key `a`, value `xy`, prediction 6.
pub static ROW: Row = (b"a", b"xy", 6);

/// A set page: KSE2, set 3, write 1, one record, which is `ROW` and never expires.
pub static SET_ROW: [u8; 33] = [
    0x4b, 0x53, 0x45, 0x32, 0, 0, 0, 3, 0, 0, 0, 0, 0, 0, 0, 1, 0, 1, 0x01, 0x00, 0x02, 0x06, 0xff,
    0xff, 0xff, 0xff, 0xff, 0xff, 0xff, 0xff, 0x61, 0x78, 0x79,
];

/// The same of a time when set pages had at most 64 records: KSE1, and the record expires at `EXPIRES`.
pub static FORMER_SET_ROW: [u8; 33] = [
    0x4b, 0x53, 0x45, 0x31, 0, 0, 0, 3, 0, 0, 0, 0, 0, 0, 0, 1, 0, 1, 0x01, 0x00, 0x02, 0x06, 0x01,
    0x02, 0x03, 0x04, 0x05, 0x06, 0x07, 0x08, 0x61, 0x78, 0x79,
];

/// The same of a time before records had an expiry: KSET, and no expiry.
pub static LASTING_SET_ROW: [u8; 25] = [
    0x4b, 0x53, 0x45, 0x54, 0, 0, 0, 3, 0, 0, 0, 0, 0, 0, 0, 1, 0, 1, 0x01, 0x00, 0x02, 0x06, 0x61,
    0x78, 0x79,
];

/// A log page: KLO1, segment 0, page 0, the same record, which expires at `EXPIRES`.
pub static LOG_ROW: [u8; 31] = [
    0x4b, 0x4c, 0x4f, 0x31, 0, 0, 0, 0, 0, 0, 0, 0, 0, 0, 0, 1, 0x01, 0x00, 0x02, 0x06, 0x01, 0x02,
    0x03, 0x04, 0x05, 0x06, 0x07, 0x08, 0x61, 0x78, 0x79,
];

/// The same of a time before records had an expiry: KLOG, and no expiry.
pub static LASTING_LOG_ROW: [u8; 23] = [
    0x4b, 0x4c, 0x4f, 0x47, 0, 0, 0, 0, 0, 0, 0, 0, 0, 0, 0, 1, 0x01, 0x00, 0x02, 0x06, 0x61, 0x78,
    0x79,
];

/// A record with these parts, which expires at `EXPIRES`.
pub fn record(alloc: Global, row: Row) -> Result<Record, Fail> {
    timed_record(alloc, row, EXPIRES)
}

/// A record with these parts, which never expires.
pub fn lasting_record(alloc: Global, row: Row) -> Result<Record, Fail> {
    timed_record(alloc, row, NEVER)
}

fn timed_record(alloc: Global, (key, value, number): Row, expires: u64) -> Result<Record, Fail> {
    let Some(pred) = Prediction::new(number) else {
        return Err("a prediction is at most 7".into());
    };
    let key = Key::new(alloc, key)?;
    let value = TimedValue {
        value: Value::new(alloc, value)?,
        expires,
    };
    Ok(Record { key, value, pred })
}

/// A page that begins with these bytes, and has zeros after them.
pub fn page_of<const PAGE: usize>(front: &[u8]) -> [u8; PAGE] {
    let mut page = [0; PAGE];
    for (byte, given) in page.iter_mut().zip(front) {
        *byte = *given;
    }
    page
}
