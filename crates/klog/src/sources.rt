// The entries that records were taken of.
ghost use Rattle.std.specs.Prelude.{◌≡◌, ◌<◌, ◌≤◌, ◌+◌, ◌^◌, ◌==◌};
ghost use Rattle.klog.specs.Sources.{number_by};

use crate::taken_record::TakenRecords;
use klog_index::{Entry, EntryTest};
use std::marker::Model;

/// The entries that records were taken of, if the segments that are held have these numbers and this many names.
#[derive(Drop)]
pub(crate) struct Sources<'a> {
    pub(crate) taken: &'a TakenRecords,
    pub(crate) first: u64,
    pub(crate) names: u64,
}

impl<'a> Model for Sources<'a> {
    ghost use Rattle.std.specs.Prelude.{◌<◌, ◌≤◌, ◌+◌, ◌^◌};
    ghost use Rattle.klog.specs.Sources.{SourceTest};

    ghost Value = { SourceTest };

    ghost view = { λ s. record { taken = s.taken.now; first = s.first; names = s.names } };

    ghost invariant = { λ s. (s.first ≤ 2 ^ 62 + 1) × (0 < s.names) × (s.names ≤ 258) };
}

impl<'a> Sources<'a> {
    // The number of a segment by its name.
    fn number_of(&self, name: u16) -> u64
        ensures { result ≡ number_by self.now name }
    {
        self.first + (u64::from(name) + (self.names - self.first % self.names)) % self.names
    }
}

impl<'a> EntryTest for Sources<'a> {
    ghost use Rattle.klog.specs.Sources.{is_source_by};

    ghost passing = { λ s e. is_source_by s e };

    fn passes(&self, entry: &Entry) -> bool {
        let number = self.number_of(entry.place.segment);
        let taken = self.taken.as_slice();
        taken
            .iter()
            .any(|t| entry.place == t.place && number == t.segment)
    }
}
