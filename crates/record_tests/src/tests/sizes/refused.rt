//! Sizes of which there is no shape, and why.
use super::rows::{Sizes, wanted};
use cache_sizes::{Shape, SizeFault};
use std::alloc::Global;

static REFUSED: [(Sizes, SizeFault); 16] = [
    // Too little flash for three pages.
    ((12_287, 1_000_000, 100, 1), SizeFault::FlashTooSmall),
    // More flash than 1,024 shards have sets for.
    (
        (4_629_452_005_376, 1_125_899_906_842_624, 100, 1),
        SizeFault::FlashTooLarge,
    ),
    // The most that can be said.
    ((u64::MAX, u64::MAX, 100, 1), SizeFault::FlashTooLarge),
    // An object of no bytes.
    ((12_288, 1_000_000, 0, 1), SizeFault::NoObjectBytes),
    // A byte more than the largest key and the largest value.
    ((12_288, 1_000_000, 2304, 1), SizeFault::ObjectTooLarge),
    // No thread.
    ((12_288, 1_000_000, 100, 0), SizeFault::NoThreads),
    // A thread more than the most.
    ((12_288, 1_000_000, 100, 4097), SizeFault::TooManyThreads),
    // A byte of memory less than the least for these.
    (
        (12_884_901_888, 363_369_855, 100, 8),
        SizeFault::MemoryTooSmall,
    ),
    // And for the least flash.
    ((12_288, 36_039, 2303, 1), SizeFault::MemoryTooSmall),
    // Of several faults the first.
    ((0, 0, 0, 0), SizeFault::FlashTooSmall),
    ((u64::MAX, 0, 0, 0), SizeFault::FlashTooLarge),
    ((12_288, 0, 0, 0), SizeFault::NoObjectBytes),
    ((12_288, 0, 2304, 4097), SizeFault::ObjectTooLarge),
    ((12_288, 0, 100, 0), SizeFault::NoThreads),
    ((12_288, 0, 100, 4097), SizeFault::TooManyThreads),
    ((12_288, 0, 100, 1), SizeFault::MemoryTooSmall),
];

// The first nine again, each with what it lacked, or without what was too much.
static JUST_ACCEPTED: [Sizes; 8] = [
    (12_288, 1_000_000, 100, 1),
    (4_629_452_005_375, 1_125_899_906_842_624, 100, 1),
    (12_288, 1_000_000, 1, 1),
    (12_288, 1_000_000, 2303, 1),
    (12_288, 1_000_000, 100, 1),
    (12_288, 1_000_000, 100, 4096),
    (12_884_901_888, 363_369_856, 100, 8),
    (12_288, 36_040, 2303, 1),
];

#[test]
fn each_fault_is_the_first(rt: HostRuntime) {
    for (sizes, fault) in &REFUSED {
        assert!(rt; Shape::of(&wanted(*sizes)).err() == Some(*fault));
    }
}

#[test]
fn one_short_of_a_fault_is_none(rt: HostRuntime) {
    for sizes in &JUST_ACCEPTED {
        assert!(rt; Shape::of(&wanted(*sizes)).is_ok());
    }
}

/// Whether a fault is told in these words.
fn is_told(alloc: Global, fault: SizeFault, words: &str) -> bool {
    match format!(in alloc; "{fault}") {
        Ok(told) => told.as_str() == words,
        Err(_) => false,
    }
}

#[test]
fn a_fault_names_its_field(rt: HostRuntime) {
    let fault = SizeFault::MemoryTooSmall;
    assert!(rt;
        fault.field() == "memory_bytes"
            && is_told(rt.alloc(), fault, "memory_bytes is too small for the lanes")
    );
}
