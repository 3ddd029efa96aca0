//! Pages that are written, at once and record by record.
use super::rows::{LOG_ROW, ROW, Row, SET_ROW, lasting_record, page_of, record};
use record_pages::{
    LogPageWriter, MAX_LOG_RECORDS, Record, Records, SetPage, SetPageWriter, encode_log_page,
    encode_set_page, fits,
};
use std::alloc::Global;
use std::test::Fail;

/// Whether the one record, as set page 3 of write 1, is the worked set page, written at once.
fn is_set_text(alloc: Global) -> Result<bool, Fail> {
    let records = [lasting_record(alloc, ROW)?];
    if !fits::<256>(&records) {
        return Ok(false);
    }
    let mut page = [0xff; 256];
    encode_set_page(3, 1, &records, &mut page);
    Ok(page == page_of::<256>(&SET_ROW))
}

/// Whether the one record, as page 0 of segment 0, is the worked log page.
fn is_log_text(alloc: Global) -> Result<bool, Fail> {
    let records = [record(alloc, ROW)?];
    if records.len() > MAX_LOG_RECORDS || !fits::<256>(&records) {
        return Ok(false);
    }
    let mut page = [0xff; 256];
    encode_log_page(0, 0, &records, &mut page);
    Ok(page == page_of::<256>(&LOG_ROW))
}

#[test]
fn one_record_is_written(rt: HostRuntime) -> Result<(), Fail> {
    assert!(rt; is_set_text(rt.alloc())? && is_log_text(rt.alloc())?);
    Ok(())
}

/// Pushes a record if it fits; whether it did.
fn push<const PAGE: usize>(writer: &mut SetPageWriter<PAGE>, added: &Record) -> bool {
    let fits = writer.fits(added.lent());
    if fits {
        writer.push(added.lent());
    }
    fits
}

/// Pushes a record if it fits; whether it did.
fn push_to_log<const PAGE: usize>(writer: &mut LogPageWriter<PAGE>, added: &Record) -> bool {
    let fits = writer.fits(added.lent());
    if fits {
        writer.push(added.lent());
    }
    fits
}

/// Whether a writer with the one record writes the worked set page.
fn writes_the_set_page(record: &Record) -> bool {
    let mut writer = SetPageWriter::<256>::new();
    let is_new = writer.is_empty();
    let is_pushed = push(&mut writer, record);
    let mut page = [0xff; 256];
    writer.text(3, 1, &mut page);
    is_new && is_pushed && writer.len() == 1 && page == page_of::<256>(&SET_ROW)
}

/// Whether a writer that was cleared writes the worked log page.
fn writes_the_log_page(record: &Record) -> bool {
    let mut writer = LogPageWriter::<256>::new();
    let was_pushed = push_to_log(&mut writer, record) && push_to_log(&mut writer, record);
    writer.clear();
    let is_pushed = writer.is_empty() && push_to_log(&mut writer, record);
    let mut page = [0xff; 256];
    writer.text(0, 0, &mut page);
    was_pushed && is_pushed && writer.len() == 1 && page == page_of::<256>(&LOG_ROW)
}

#[test]
fn one_record_is_written_by_a_writer(rt: HostRuntime) -> Result<(), Fail> {
    assert!(rt;
        writes_the_set_page(&lasting_record(rt.alloc(), ROW)?)
            && writes_the_log_page(&record(rt.alloc(), ROW)?)
    );
    Ok(())
}

static FULL: Row = (b"a", &[0x78; 225], 0);

static ABOVE: Row = (b"a", &[0x78; 226], 0);

/// Whether a page of 256 bytes is full with this record: it ends with the record's last byte.
fn fills_a_page(record: &Record) -> bool {
    let mut writer = SetPageWriter::<256>::new();
    let is_pushed = push(&mut writer, record);
    let mut page = [0; 256];
    writer.text(0, 0, &mut page);
    is_pushed && page[255] == 0x78 && SetPage::read(&page).is_some()
}

// A record of 238 bytes is all that a page of 256 bytes has room for.
#[test]
fn a_small_page_has_its_room(rt: HostRuntime) -> Result<(), Fail> {
    assert!(rt;
        fills_a_page(&record(rt.alloc(), FULL)?) && !fills_a_page(&record(rt.alloc(), ABOVE)?)
    );
    Ok(())
}

static HALF: Row = (b"a", &[0x78; 2026], 6);

static MORE_THAN_HALF: Row = (b"b", &[0x79; 2027], 6);

/// Whether two records are all of a log page of 4,096 bytes, and its last two bytes are zeros.
fn fill_a_large_page(first: &Record, second: &Record) -> bool {
    let mut writer = LogPageWriter::<4096>::new();
    let are_pushed = push_to_log(&mut writer, first) && push_to_log(&mut writer, second);
    let mut page = [0xff; 4096];
    writer.text(7, 9, &mut page);
    are_pushed && page[4093] == 0x78 && page[4094] == 0 && page[4095] == 0
}

// Two records of 2,039 bytes are all that a page of 4,096 bytes has room for.
#[test]
fn a_large_page_has_its_room(rt: HostRuntime) -> Result<(), Fail> {
    let half = record(rt.alloc(), HALF)?;
    assert!(rt;
        fill_a_large_page(&half, &half)
            && !fill_a_large_page(&half, &record(rt.alloc(), MORE_THAN_HALF)?)
    );
    Ok(())
}

/// How many of this many tries to push a record succeed.
fn pushed(tries: u8, record: &Record) -> usize {
    let mut writer = SetPageWriter::<4096>::new();
    for _ in 0..tries {
        let _is_pushed = push(&mut writer, record);
    }
    writer.len()
}

/// The same on a log page.
fn pushed_to_log(tries: u8, record: &Record) -> usize {
    let mut writer = LogPageWriter::<4096>::new();
    for _ in 0..tries {
        let _is_pushed = push_to_log(&mut writer, record);
    }
    writer.len()
}

/// This many records of 13 bytes.
fn small(alloc: Global, count: u8) -> Result<Vec<Record>, Fail> {
    let mut records = Vec::new(alloc);
    for _ in 0..count {
        records.push(record(alloc, (b"a", b"", 0))?)?;
    }
    Ok(records)
}

// Records of 13 bytes leave room on a page of 4,096 bytes when as many of them lie there as may.
#[test]
fn a_page_of_each_kind_has_its_limit(rt: HostRuntime) -> Result<(), Fail> {
    let record = record(rt.alloc(), (b"a", b"", 0))?;
    assert!(rt;
        pushed(200, &record) == 128
            && pushed_to_log(200, &record) == 64
            && fits::<4096>(&small(rt.alloc(), 128)?)
            && !fits::<4096>(&small(rt.alloc(), 129)?)
    );
    Ok(())
}

/// Whether the key is found in this slot with this value.
fn is_found(records: Records<'_>, key: &[u8], slot: usize, value: &[u8]) -> bool {
    let Some(found) = records.find_key(key) else {
        return false;
    };
    found.slot == slot && found.lent.value == value
}

/// A page with these records.
fn with_rows(alloc: Global, rows: &[Row]) -> Result<SetPageWriter<256>, Fail> {
    let mut writer = SetPageWriter::<256>::new();
    for row in rows {
        let _is_pushed = push(&mut writer, &record(alloc, *row)?);
    }
    Ok(writer)
}

// Two records of one key: the look-up takes the first, and a key that no record has is not found.
#[test]
fn the_first_record_of_a_key_is_found(rt: HostRuntime) -> Result<(), Fail> {
    let writer = with_rows(
        rt.alloc(),
        &[(b"ab", b"1", 6), (b"cd", b"2", 6), (b"cd", b"3", 6)],
    )?;
    let is_second = is_found(writer.records(), b"cd", 1, b"2");
    assert!(rt; writer.len() == 3 && is_second && !is_found(writer.records(), b"c", 0, b"1"));
    Ok(())
}
