//! The names of what the calls of a lane give.
use super::*;

pub fn name_of_put(put: Result<Pushed, PutFault>) -> &'static [u8] {
    match put {
        Ok(pushed) => name_of_pushed(pushed),
        Err(PutFault::TooLarge) => b"too large",
        Err(PutFault::OutOfMemory) => b"out of memory",
    }
}

fn name_of_pushed(pushed: Pushed) -> &'static [u8] {
    match pushed {
        Pushed::Nobody => b"nobody",
        Pushed::Declined => b"declined",
        Pushed::Logged => b"logged",
        Pushed::Full => b"full",
        Pushed::IndexFull => b"index full",
    }
}

pub fn name_of_fill(fill: Result<Filled, PutFault>) -> &'static [u8] {
    match fill {
        Ok(Filled::Stored(pushed)) => name_of_pushed(pushed),
        Ok(Filled::Stale) => b"stale",
        Err(fault) => name_of_put(Err(fault)),
    }
}

pub fn name_of_seen(seen: Result<AnswerKind, KeyFault>) -> &'static [u8] {
    match seen {
        Ok(AnswerKind::Hit { tier, .. }) => name_of_tier(tier),
        Ok(AnswerKind::Miss(cause)) => name_of_miss(cause),
        Err(fault) => name_of_key_fault(fault),
    }
}

fn name_of_tier(tier: Tier) -> &'static [u8] {
    match tier {
        Tier::Memory => b"memory",
        Tier::Log => b"log",
        Tier::Set => b"set",
    }
}

fn name_of_miss(cause: MissCause) -> &'static [u8] {
    match cause {
        MissCause::Absent => b"absent",
        MissCause::Expired => b"expired",
        MissCause::Fault => b"fault",
        MissCause::Damaged => b"damaged",
    }
}

pub fn name_of_key_fault(fault: KeyFault) -> &'static [u8] {
    match fault {
        KeyFault::KeyEmpty => b"empty",
        KeyFault::KeyTooLong => b"too long",
        KeyFault::OutOfMemory => b"out of memory",
    }
}

pub fn name_of_flush(flushed: Flushed) -> &'static [u8] {
    match flushed {
        Flushed::Nothing => b"nothing",
        Flushed::Wrote => b"wrote",
        Flushed::PageLost => b"page lost",
        Flushed::Sealed => b"sealed",
        Flushed::LogFull => b"log full",
    }
}

pub fn name_of_move(moved: MovedWhole) -> &'static [u8] {
    match moved {
        MovedWhole::Nothing => b"nothing",
        MovedWhole::Busy => b"busy",
        MovedWhole::Freed => b"freed",
        MovedWhole::Readmitted => b"readmitted",
        MovedWhole::Dropped => b"dropped",
        MovedWhole::PageLost => b"page lost",
        MovedWhole::Written => b"written",
        MovedWhole::Forgotten => b"forgotten",
    }
}
