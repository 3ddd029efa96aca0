//! What leaves the log: sets that are taken, and records that are readmitted.
use super::run::take;
use super::scripted::log;
use super::*;

static TAKEN_FROM_MEMORY: &[u8] = b"
    refuse-from 0; config 1 1 1 2 1 8 1 65536
    append ax 1 appended; append bx 2 appended
    look ax hit 1
    take bx=2 at 0 0 1 6 0 ax=1 at 0 0 0 5 0
";

#[test]
fn a_set_is_taken_from_memory_newest_first(rt: HostRuntime) -> Result<(), Fail> {
    play(rt.alloc(), TAKEN_FROM_MEMORY)
}

static ALONE: &[u8] = b"
    config 1 1 1 2 1 8 1 65536
    append ax 1 appended; append bx 2 appended
    hold
    append cx 3 appended
    drop-held
    count 1
    look ax absent; look bx absent; look cx hit 3
";

#[test]
fn what_was_taken_is_dropped_alone(rt: HostRuntime) -> Result<(), Fail> {
    play(rt.alloc(), ALONE)
}

// Segments 0 to 3 come and go, and then the name of segment 0 comes again.
static AT_ONE_PLACE: &[u8] = b"
    config 1 1 1 2 1 8 1 65536
    append ax 1 appended; flush sealed; flush wrote
    hold
    strike ax
    free freed
    append ax 2 appended; flush sealed; flush wrote
    strike ax
    free freed
    append ax 3 appended; flush sealed; flush wrote
    strike ax
    free freed
    append ax 4 appended; flush sealed; flush wrote
    strike ax
    free freed
    append ax 5 appended
    drop-held
    look ax hit 5
    take ax=5 at 0 0 0 5 4
";

#[test]
fn a_later_record_at_the_place_of_a_taken_one_stays(rt: HostRuntime) -> Result<(), Fail> {
    play(rt.alloc(), AT_ONE_PLACE)
}

type Wide = FuseDevice<MemoryDevice<4096>>;

// Segments of two pages.
static TWO_PAGES: Config = Config {
    lanes: 1,
    sets: 1,
    memory: 1,
    segments: 2,
    segment_pages: 2,
    entries: 128,
    threshold: 1,
    admit: 65536,
};

// The second page is lost, and with it one record.
static LOSES_THE_SECOND_PAGE: &[u8] = b"
    flush sealed; flush wrote; flush page lost
    count 64
    look p absent; look o hit o; look 0 hit 0
";

// Appends 65 records, each of which has a byte that counts them as its key and value, and says whether all entered.
fn fills(alloc: Global, owner: &mut Owner<Wide, 4096>) -> Result<bool, Fail> {
    for number in 0..65u8 {
        let byte = b'0' + number;
        let key = key(alloc, &[byte])?;
        let value = TimedValue {
            value: value(alloc, &[byte])?,
            expires: EXPIRES,
        };
        if owner.append(&key, &value) != Some(Appended::Appended) {
            return Ok(false);
        }
    }
    Ok(true)
}

// Whether a record that was taken has this number, which tells its place.
fn is_numbered(record: &TakenRecord, number: u8) -> bool {
    let place = Place {
        segment: 0,
        page: number / 64,
        slot: number % 64,
    };
    record.stored.key.bytes() == [b'0'.wrapping_add(number)].as_slice() && record.place == place
}

// Whether these are the 32 newest of the 65 records, newest first.
fn are_the_newest(taken: SetTaken) -> bool {
    let SetTaken::Records(records) = taken else {
        return false;
    };
    if records.len() != 32 {
        return false;
    }
    for behind in 0..32u8 {
        if !is_numbered(records.at(behind as usize), 64 - behind) {
            return false;
        }
    }
    true
}

// Whether all 65 records enter, and a taking gives the 32 newest.
fn gives_the_newest(alloc: Global, owner: &mut Owner<Wide, 4096>) -> Result<bool, Fail> {
    Ok(fills(alloc, owner)? && are_the_newest(take(alloc, owner)?))
}

// Fills two pages, takes the newest records, and loses the second page.
fn fills_two_pages(
    rt: &impl Abort,
    alloc: Global,
    owner: &mut Owner<Wide, 4096>,
) -> Result<(), Fail> {
    assert!(rt; gives_the_newest(alloc, owner)?);
    run_text(alloc, owner, LOSES_THE_SECOND_PAGE)
}

// A log of segments of two pages, on a device whose second call is refused.
fn wide_log(alloc: Global) -> Result<Box<Owner<Wide, 4096>>, Fail> {
    log(
        alloc,
        &TWO_PAGES,
        FuseDevice::one(MemoryDevice::new(alloc, 5)?, 2),
    )
}

#[test]
fn a_page_has_64_records_and_a_taking_32(rt: HostRuntime) -> Result<(), Fail> {
    fills_two_pages(&rt, rt.alloc(), &mut *wide_log(rt.alloc())?)
}

static READMITTED_OR_LOST: &[u8] = b"
    config 1 1 1 2 1 8 1 65536
    append ax 1*100 appended; append bx 2*100 appended; flush sealed; flush wrote
    look ax hit 1*100
    readmit readmitted
    take ax=1*100 at 1 0 0 6 1 bx=2*100 at 0 0 1 6 0
    look ax hit 1*100
    # With 106 bytes in one buffer and 136 in the other none has room for 106 of 238: what is readmitted is dropped.
    append cx 3*130 appended
    readmit dropped
    look bx absent; look ax hit 1*100
    readmit none; free freed
";

#[test]
fn a_readmitted_record_is_the_newest_or_it_is_lost(rt: HostRuntime) -> Result<(), Fail> {
    play(rt.alloc(), READMITTED_OR_LOST)
}

static READMITTED_FROM_A_LOST_PAGE: &[u8] = b"
    append ax 1*100 appended; append bx 2*100 appended; flush sealed; flush wrote
    look ax damaged
    count 2
    readmit damaged
    count 0
    look bx absent
";

#[test]
fn a_readmission_from_a_page_that_is_not_the_logs_loses_it(rt: HostRuntime) -> Result<(), Fail> {
    play_on_blank(rt.alloc(), READMITTED_FROM_A_LOST_PAGE)
}

static TAKEN_FROM_A_LOST_PAGE: &[u8] = b"
    append ax 1*100 appended; append bx 2*100 appended; flush sealed; flush wrote
    take page lost; take none
";

#[test]
fn a_taking_from_a_page_that_is_not_the_logs_loses_it(rt: HostRuntime) -> Result<(), Fail> {
    play_on_blank(rt.alloc(), TAKEN_FROM_A_LOST_PAGE)
}
