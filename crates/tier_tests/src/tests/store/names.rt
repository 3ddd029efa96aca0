//! The names of what the calls of a store give.
use super::*;
use mover::Begin;
use record_pages::MissCause;

pub fn name_of_put(put: Result<Pushed, PutFault>) -> &'static [u8] {
    match put {
        Ok(Pushed::Nobody) => b"nobody",
        Ok(Pushed::Declined) => b"declined",
        Ok(Pushed::Logged) => b"logged",
        Ok(Pushed::Full) => b"full",
        Ok(Pushed::IndexFull) => b"index full",
        Err(PutFault::TooLarge) => b"too large",
        Err(PutFault::OutOfMemory) => b"out of memory",
    }
}

pub fn name_of_fate(fate: CopyFate) -> &'static [u8] {
    match fate {
        CopyFate::Known => b"known",
        CopyFate::TooLarge => b"too large",
        CopyFate::Logged => b"logged",
        CopyFate::Full => b"full",
        CopyFate::IndexFull => b"index full",
    }
}

pub fn name_of_tier(tier: Tier) -> &'static [u8] {
    match tier {
        Tier::Memory => b"memory",
        Tier::Log => b"log",
        Tier::Set => b"set",
    }
}

pub fn name_of_miss(cause: MissCause) -> &'static [u8] {
    match cause {
        MissCause::Absent => b"absent",
        MissCause::Expired => b"expired",
        MissCause::Fault => b"fault",
        MissCause::Damaged => b"damaged",
    }
}

pub fn name_of_move(moved: MovedWhole) -> &'static [u8] {
    match moved {
        MovedWhole::Nothing => b"nothing",
        MovedWhole::Busy => b"busy",
        MovedWhole::Freed => b"freed",
        MovedWhole::Readmitted => b"readmitted",
        MovedWhole::Dropped => b"dropped",
        MovedWhole::PageLost => b"page lost",
        MovedWhole::Written => b"written",
        MovedWhole::Forgotten => b"forgotten",
    }
}

// How a move began that has no job.
pub fn name_of_begin(begun: &Begin) -> &'static [u8] {
    match begun {
        Begin::Nothing => b"nothing",
        Begin::Busy => b"busy",
        Begin::Freed => b"freed",
        Begin::Readmitted => b"readmitted",
        Begin::Dropped => b"dropped",
        Begin::PageLost => b"page lost",
        Begin::Job(_) => b"a job",
    }
}

pub fn name_of_commit(committed: Committed) -> &'static [u8] {
    match committed {
        Committed::Written => b"written",
        Committed::Forgotten => b"forgotten",
        Committed::StalePlan => b"stale plan",
        Committed::BadPlan => b"bad plan",
    }
}

pub fn name_of_abort(aborted: Aborted) -> &'static [u8] {
    match aborted {
        Aborted::Aborted => b"aborted",
        Aborted::StalePlan => b"stale plan",
    }
}
