//! The names of what the calls of a log give.
use super::*;

pub fn name_of_appended(appended: Option<Appended>) -> &'static [u8] {
    match appended {
        Some(Appended::Appended) => b"appended",
        Some(Appended::IndexFull) => b"index full",
        Some(Appended::Full) => b"full",
        None => b"too large",
    }
}

pub fn name_of_readmitted(readmitted: Option<Readmitted>) -> &'static [u8] {
    match readmitted {
        Some(Readmitted::Readmitted) => b"readmitted",
        Some(Readmitted::Dropped) => b"dropped",
        Some(Readmitted::Fault) => b"fault",
        Some(Readmitted::Damaged) => b"damaged",
        None => b"none",
    }
}

// Why no entry was located.
pub fn name_of_missed(located: LocatedInLog) -> &'static [u8] {
    match located {
        LocatedInLog::Hit { .. } => b"hit",
        LocatedInLog::Absent => b"absent",
        LocatedInLog::Expired => b"expired",
        LocatedInLog::Fault => b"fault",
        LocatedInLog::Damaged => b"damaged",
    }
}

// Why the oldest segment has no first record.
pub fn name_of_oldest(oldest: Oldest) -> &'static [u8] {
    match oldest {
        Oldest::NoSegment => b"no segment",
        Oldest::Empty => b"empty",
        Oldest::Passed => b"passed",
        Oldest::First(_) => b"first",
    }
}
