// The numbers of a load, with their names, ranges and defaults.
ghost use Rattle.std.specs.Prelude.{◌≡◌, ◌≤◌};
ghost use Rattle.std.specs.Range.{range_inclusive_start, range_inclusive_end};
ghost use Rattle.load.specs.Settings.{row_of, is_admitted, number_in};

use crate::meanings;
use record_pages::Field;
use std::ops::RangeInclusive;

/// A number of a load, which an option of its name gives.
#[derive(Clone, Copy, PartialEq, Eq)]
pub enum Setting {
    /// Lanes: the independent parts of the cache.
    Lanes,
    /// Sets of each lane.
    Sets,
    /// Objects in memory of each lane.
    Memory,
    /// Log segments on the device of each lane.
    Segments,
    /// Pages of a segment.
    SegmentPages,
    /// Entries of each lane's log index.
    Entries,
    /// The least number of objects of a set that move from the log together.
    Threshold,
    /// How many of 65,536 pairs pushed out of memory enter the log.
    Admit,
    /// Callers, each in a thread of its own.
    Callers,
    /// Operations of each caller.
    Operations,
    /// Keys that the callers share.
    Keys,
    /// Bytes of each value.
    ValueBytes,
    /// Gets, in per cent of the operations.
    Gets,
    /// Removes, in per cent of the operations.
    Removes,
    /// Workers that flush and move, each in a thread of its own.
    Workers,
    /// The seed of the callers' random words.
    Seed,
    /// Operations of its caller after which a put expires; 0 for never.
    Ttl,
    /// Groups of as many lanes, of a load of a cache that serves. So are those below.
    Shards,
    /// Slots of each lane for leases; 0 for no leases.
    Leases,
    /// Of so many hits on flash one has its object brought back into memory; 0 brings none back.
    BringBack,
    /// Operations of each caller.
    ServedOperations,
    /// Keys that each caller has for itself.
    ServedKeys,
    /// Bytes of each value.
    ServedValueBytes,
    /// Operations of its caller after which a put expires; 0 for never.
    ServedTtl,
    /// Seconds after which no operation is begun; 0 for no such limit.
    Seconds,
}

/// The settings of a run in their order.
pub const SETTINGS: [Setting; 17] = [
    Setting::Lanes,
    Setting::Sets,
    Setting::Memory,
    Setting::Segments,
    Setting::SegmentPages,
    Setting::Entries,
    Setting::Threshold,
    Setting::Admit,
    Setting::Callers,
    Setting::Operations,
    Setting::Keys,
    Setting::ValueBytes,
    Setting::Gets,
    Setting::Removes,
    Setting::Workers,
    Setting::Seed,
    Setting::Ttl,
];

/// The settings of a load of a cache that serves, in their order.
pub const SERVE_SETTINGS: [Setting; 21] = [
    Setting::Lanes,
    Setting::Sets,
    Setting::Memory,
    Setting::Segments,
    Setting::SegmentPages,
    Setting::Entries,
    Setting::Threshold,
    Setting::Admit,
    Setting::Callers,
    Setting::ServedOperations,
    Setting::ServedKeys,
    Setting::ServedValueBytes,
    Setting::Gets,
    Setting::Removes,
    Setting::Workers,
    Setting::Seed,
    Setting::ServedTtl,
    Setting::Shards,
    Setting::Leases,
    Setting::BringBack,
    Setting::Seconds,
];

/// The settings that the size of a cache determines: with a size none of them may be given.
pub const SHAPE_SETTINGS: [Setting; 7] = [
    Setting::Lanes,
    Setting::Sets,
    Setting::Memory,
    Setting::Segments,
    Setting::SegmentPages,
    Setting::Entries,
    Setting::Shards,
];

impl Setting {
    /// The name of its option, without the two dashes.
    pub fn name(self) -> &'static str
        ensures { result.now ≡ (row_of self).name }
    {
        match self {
            Setting::Lanes => "lanes",
            Setting::Sets => "sets",
            Setting::Memory => "memory",
            Setting::Segments => "segments",
            Setting::SegmentPages => "segment-pages",
            Setting::Entries => "entries",
            Setting::Threshold => "threshold",
            Setting::Admit => "admit",
            Setting::Callers => "callers",
            Setting::Operations | Setting::ServedOperations => "operations",
            Setting::Keys | Setting::ServedKeys => "keys",
            Setting::ValueBytes | Setting::ServedValueBytes => "value-bytes",
            Setting::Gets => "gets",
            Setting::Removes => "removes",
            Setting::Workers => "workers",
            Setting::Seed => "seed",
            Setting::Ttl | Setting::ServedTtl => "ttl",
            Setting::Shards => "shards",
            Setting::Leases => "leases",
            Setting::BringBack => "bring-back",
            Setting::Seconds => "seconds",
        }
    }

    /// What it is, its range, what a larger number does, and the number that it is if none is given, for the help of its option,
    /// in lines that fit 100 columns there.
    pub fn meaning(self) -> &'static str {
        match self {
            Setting::Lanes => meanings::LANES,
            Setting::Sets => meanings::SETS,
            Setting::Memory => meanings::MEMORY,
            Setting::Segments => meanings::SEGMENTS,
            Setting::SegmentPages => meanings::SEGMENT_PAGES,
            Setting::Entries => meanings::ENTRIES,
            Setting::Threshold => meanings::THRESHOLD,
            Setting::Admit => meanings::ADMIT,
            Setting::Callers => meanings::CALLERS,
            Setting::Operations => meanings::OPERATIONS,
            Setting::Keys => meanings::KEYS,
            Setting::ValueBytes => meanings::VALUE_BYTES,
            Setting::Gets => meanings::GETS,
            Setting::Removes => meanings::REMOVES,
            Setting::Workers => meanings::WORKERS,
            Setting::Seed => meanings::SEED,
            Setting::Ttl => meanings::TTL,
            Setting::Shards => meanings::SHARDS,
            Setting::Leases => meanings::LEASES,
            Setting::BringBack => meanings::BRING_BACK,
            Setting::ServedOperations => meanings::SERVED_OPERATIONS,
            Setting::ServedKeys => meanings::SERVED_KEYS,
            Setting::ServedValueBytes => meanings::SERVED_VALUE_BYTES,
            Setting::ServedTtl => meanings::SERVED_TTL,
            Setting::Seconds => meanings::SECONDS,
        }
    }

    /// The heading under which the help has its option.
    pub fn heading(self) -> &'static str {
        match self {
            Setting::Lanes
            | Setting::Sets
            | Setting::Memory
            | Setting::Segments
            | Setting::SegmentPages
            | Setting::Entries
            | Setting::Threshold
            | Setting::Admit
            | Setting::Shards
            | Setting::Leases
            | Setting::BringBack => "Cache options",
            _ => "Load options",
        }
    }

    // The numbers that it may be: those of the field of a configuration, if it is one.
    fn range(self) -> RangeInclusive<u32>
        ensures least { range_inclusive_start result ≡ (row_of self).range.least }
        ensures greatest { range_inclusive_end result ≡ (row_of self).range.greatest }
        ensures order { (row_of self).range.least ≤ (row_of self).range.greatest }
    {
        match self {
            Setting::Lanes => range_of(Field::Lanes),
            Setting::Sets => range_of(Field::Sets),
            Setting::Memory => range_of(Field::Memory),
            Setting::Segments => range_of(Field::Segments),
            Setting::SegmentPages => range_of(Field::SegmentPages),
            Setting::Entries => range_of(Field::Entries),
            Setting::Threshold => range_of(Field::Threshold),
            Setting::Admit => range_of(Field::Admit),
            Setting::Callers => 1..=64,
            Setting::Operations | Setting::Keys => 1..=1000000,
            Setting::ValueBytes => 0..=2048,
            Setting::Gets | Setting::Removes => 0..=100,
            Setting::Workers => 1..=16,
            Setting::Seed => 0..=4294967295,
            Setting::Ttl => 0..=1000000,
            Setting::Shards => 1..=1024,
            Setting::Leases => 0..=1048576,
            Setting::BringBack => 0..=1000000,
            Setting::ServedOperations => 1..=1000000000,
            Setting::ServedKeys => 1..=100000000,
            Setting::ServedValueBytes => 8..=2048,
            Setting::ServedTtl => 0..=1000000000,
            Setting::Seconds => 0..=2147483648,
        }
    }

    /// The least number that it may be.
    pub fn least(self) -> u32
        ensures value { result ≡ (row_of self).range.least }
        ensures order { result ≤ (row_of self).range.greatest }
    {
        *self.range().start()
    }

    /// The greatest number that it may be.
    pub fn greatest(self) -> u32
        ensures { result ≡ (row_of self).range.greatest }
    {
        *self.range().end()
    }

    /// The number that it is if none is given, in decimal.
    pub fn default_word(self) -> &'static str
        ensures { result.now ≡ (row_of self).default }
    {
        match self {
            Setting::Lanes | Setting::SegmentPages | Setting::Callers => "4",
            Setting::Sets | Setting::Memory => "64",
            Setting::Segments => "8",
            Setting::Entries => "4096",
            Setting::Threshold | Setting::Workers => "2",
            Setting::Admit => "65536",
            Setting::Operations => "10000",
            Setting::ServedOperations => "1000000",
            Setting::Keys | Setting::ServedKeys => "1000",
            Setting::ValueBytes | Setting::ServedValueBytes => "100",
            Setting::Gets => "70",
            Setting::Removes => "5",
            Setting::Seed | Setting::Shards => "1",
            Setting::Ttl | Setting::ServedTtl => "0",
            Setting::Leases | Setting::BringBack | Setting::Seconds => "0",
        }
    }

    /// Whether it may be this number.
    pub fn admits(self, number: u32) -> bool
        ensures { result ≡ is_admitted self number }
    {
        self.least() <= number && number <= self.greatest()
    }

    /// The number that a text gives it: digits, with or without a plus sign before them. `None` if the
    /// text is no such number, or one that it may not be.
    pub fn number(self, text: &str) -> Option<u32>
        ensures { result ≡ number_in self text.now }
    {
        let Ok(number) = text.parse::<u32>() else {
            return None;
        };
        if self.admits(number) {
            Some(number)
        } else {
            None
        }
    }
}

ghost use Rattle.record_pages.specs.Ranges.{range_of};

// The numbers that a field of a configuration may be.
fn range_of(field: Field) -> RangeInclusive<u32>
    ensures least { range_inclusive_start result ≡ (range_of field).least }
    ensures greatest { range_inclusive_end result ≡ (range_of field).greatest }
    ensures order { (range_of field).least ≤ (range_of field).greatest }
{
    field.least()..=field.greatest()
}
