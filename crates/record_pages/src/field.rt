// The fields of a configuration, with their names and ranges.
ghost use Rattle.std.specs.Prelude.{◌≡◌, ◌≤◌, Some};

use crate::limits::{
    MAX_ADMIT, MAX_ENTRIES, MAX_LANES, MAX_MEMORY, MAX_SEGMENT_PAGES, MAX_SEGMENTS, MAX_SETS,
    MAX_THRESHOLD, MIN_SEGMENTS,
};
use std::fmt;

/// A field of a configuration.
#[derive(Clone, Copy, Debug, PartialEq, Eq)]
pub enum Field {
    Lanes,
    Sets,
    Memory,
    Segments,
    SegmentPages,
    Entries,
    Threshold,
    Admit,
}

impl Field {
    ghost use Rattle.record_pages.specs.FieldNames.{name_of};
    ghost use Rattle.record_pages.specs.Ranges.{range_of, is_in};

    /// The name of the field, as messages spell it.
    pub fn name(self) -> &'static str
        ensures { result.now ≡ name_of self }
    {
        match self {
            Field::Lanes => "lanes",
            Field::Sets => "sets",
            Field::Memory => "memory",
            Field::Segments => "segments",
            Field::SegmentPages => "segment_pages",
            Field::Entries => "entries",
            Field::Threshold => "threshold",
            Field::Admit => "admit",
        }
    }

    /// The least number that the field may be.
    pub fn least(self) -> u32
        ensures value { result ≡ (range_of self).least }
        ensures order { result ≤ (range_of self).greatest }
    {
        match self {
            Field::Admit => 0,
            Field::Segments => MIN_SEGMENTS,
            _ => 1,
        }
    }

    /// The greatest number that the field may be.
    pub fn greatest(self) -> u32
        ensures { result ≡ (range_of self).greatest }
    {
        match self {
            Field::Lanes => MAX_LANES,
            Field::Sets => MAX_SETS,
            Field::Memory => MAX_MEMORY,
            Field::Segments => MAX_SEGMENTS,
            Field::SegmentPages => MAX_SEGMENT_PAGES,
            Field::Entries => MAX_ENTRIES,
            Field::Threshold => MAX_THRESHOLD,
            Field::Admit => MAX_ADMIT,
        }
    }

    /// Whether the field may be this number.
    pub fn admits(self, number: u32) -> bool
        ensures { result ≡ is_in (range_of self) number }
    {
        self.least() <= number && number <= self.greatest()
    }
}

impl fmt::Display for Field {
    ghost use Rattle.record_pages.specs.FieldNames.{name_of};

    ghost output = { λ f. Some (name_of f) };

    fn fmt<W: fmt::Write>(&self, f: &mut fmt::Formatter<W>) -> fmt::Result {
        f.write_str(self.name())
    }
}
