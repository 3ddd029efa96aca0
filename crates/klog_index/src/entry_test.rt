// A test of entries.
ghost use Rattle.std.specs.Prelude.{◌≡◌, ◌==◌, Bool};
ghost use Rattle.klog_index.specs.declared.entry.Entry.{Entry};
ghost use Rattle.klog_index.specs.Entries.{is_at};

use crate::entry::Entry;
use crate::place::Place;

/// A test that an entry passes or not.
pub trait EntryTest {
    /// The entries that pass.
    ghost passing: { Self → Entry → Bool };

    /// Whether an entry passes.
    fn passes(&self, entry: &Entry) -> bool
        ensures { result ≡ passing self.now entry.now };
}

// The entry has this tag.
#[derive(Clone, Copy)]
pub(crate) struct HasTag {
    pub(crate) tag: u16,
}

impl EntryTest for HasTag {
    ghost passing = { λ test e. e.tag == test.tag };

    fn passes(&self, entry: &Entry) -> bool {
        entry.tag == self.tag
    }
}

// The entry lies at this place.
#[derive(Clone, Copy)]
pub(crate) struct LiesAt {
    pub(crate) place: Place,
}

impl EntryTest for LiesAt {
    ghost passing = { λ test e. is_at test.place e };

    fn passes(&self, entry: &Entry) -> bool {
        entry.place == self.place
    }
}
