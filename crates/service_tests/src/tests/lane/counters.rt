//! The counters of a lane, by their names.
use super::*;

// Those that texts name, in the order of `counter_at`.
static NAMES: &[u8] = b"memory-hits log-hits set-hits absent expired \
    puts-stored puts-bytes puts-too-large fills-stored fills-bytes fills-stale leases-given removals \
    logged log-full sealed pages-written sets-written segments-freed upkeep-steps steps-in-help";

fn counter_at(place: usize) -> Option<Counter> {
    match place {
        0 => Some(Counter::MemoryHits),
        1 => Some(Counter::LogHits),
        2 => Some(Counter::SetHits),
        3 => Some(Counter::Absent),
        4 => Some(Counter::Expired),
        5 => Some(Counter::PutsStored),
        6 => Some(Counter::PutsBytes),
        7 => Some(Counter::PutsTooLarge),
        8 => Some(Counter::FillsStored),
        9 => Some(Counter::FillsBytes),
        10 => Some(Counter::FillsStale),
        11 => Some(Counter::LeasesGiven),
        12 => Some(Counter::Removals),
        13 => Some(Counter::Logged),
        14 => Some(Counter::LogFull),
        15 => Some(Counter::Sealed),
        16 => Some(Counter::PagesWritten),
        17 => Some(Counter::SetsWritten),
        18 => Some(Counter::SegmentsFreed),
        19 => Some(Counter::UpkeepSteps),
        20 => Some(Counter::StepsInHelp),
        _ => None,
    }
}

/// Tells the number of the counter that a step names.
pub fn tell_count(counts: &Counts, step: &mut TextStep<'_>) {
    match counter_named(step.word()) {
        Some(counter) => step.tell_number(counts.of(counter)),
        None => step.refuse(),
    }
}

fn counter_named(name: &[u8]) -> Option<Counter> {
    counter_at(place_among(NAMES, name)?)
}

// Whether the four counters of hits in memory and in the log, of removals and of steps in help have these numbers.
fn are(counts: &Counts, memory: u64, log: u64, removals: u64, in_help: u64) -> bool {
    counts.of(Counter::MemoryHits) == memory
        && counts.of(Counter::LogHits) == log
        && counts.of(Counter::Removals) == removals
        && counts.of(Counter::StepsInHelp) == in_help
}

#[test]
fn counts_are_added_counter_by_counter(rt: HostRuntime) {
    let mut one = Counts::none();
    one.add(Counter::MemoryHits, 3);
    one.add(Counter::Removals, 5);
    let mut other = Counts::none();
    other.add(Counter::Removals, u64::MAX);
    other.add(Counter::StepsInHelp, 7);
    let both = one.together(&other);
    assert!(rt; are(&both, 3, 0, 4, 7) && both != one);
}
