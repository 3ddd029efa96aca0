// The numbers of a cache as they are asked for, and the test of their ranges.
ghost use Rattle.std.specs.Prelude.{◌≡◌, None, Some, MatchResult};

use crate::field::Field;
use crate::layout::Layout;
use thiserror::Error;

/// The numbers of a cache, as they are asked for.
#[derive(Clone, Copy, PartialEq, Eq)]
pub struct Config {
    /// Lanes, 1 to 16: the independent parts of the cache.
    pub lanes: u32,
    /// Sets of each lane, 1 to 65,536.
    pub sets: u32,
    /// Objects in memory of each lane, 1 to 1,048,576.
    pub memory: u32,
    /// Log segments on the device of each lane, 2 to 256.
    pub segments: u32,
    /// Pages of a segment, 1 to 64.
    pub segment_pages: u32,
    /// Entries of each lane's log index, 1 to 1,048,576.
    pub entries: u32,
    /// The least number of objects of a set that move from the log together, 1 to 32.
    pub threshold: u32,
    /// How many of 65,536 pairs pushed out of memory enter the log, 0 to 65,536.
    pub admit: u32,
}

/// The first field, in the order of the fields, that is out of its range.
#[derive(Clone, Copy, Debug, PartialEq, Eq, Error)]
#[error("{field} is out of its range")]
pub struct ConfigFault {
    pub field: Field,
}

impl Config {
    ghost use Rattle.record_pages.specs.Table.{first_faulty};
    ghost use Rattle.record_pages.specs.Asked.{HasNumbersOf};

    /// The layout with these numbers, or the first field that is out of its range.
    pub fn check(&self) -> Result<Layout, ConfigFault>
        ensures { MatchResult result
            (λ layout. (first_faulty self.now ≡ None) × HasNumbersOf layout self.now)
            (λ fault. first_faulty self.now ≡ Some fault.field) }
    {
        let Config {
            lanes,
            sets,
            memory,
            segments,
            segment_pages,
            entries,
            threshold,
            admit,
        } = *self;
        let field = if !Field::Lanes.admits(lanes) {
            Field::Lanes
        } else if !Field::Sets.admits(sets) {
            Field::Sets
        } else if !Field::Memory.admits(memory) {
            Field::Memory
        } else if !Field::Segments.admits(segments) {
            Field::Segments
        } else if !Field::SegmentPages.admits(segment_pages) {
            Field::SegmentPages
        } else if !Field::Entries.admits(entries) {
            Field::Entries
        } else if !Field::Threshold.admits(threshold) {
            Field::Threshold
        } else if !Field::Admit.admits(admit) {
            Field::Admit
        } else {
            return Ok(Layout {
                lanes,
                sets,
                memory,
                segments,
                segment_pages,
                entries,
                threshold,
                admit,
            });
        };
        Err(ConfigFault { field })
    }
}
