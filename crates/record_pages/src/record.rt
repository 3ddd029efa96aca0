// A record that its owner keeps.
ghost use Rattle.std.specs.Prelude.{◌≡◌};

use crate::key::Key;
use crate::object::RECORD_OVERHEAD;
use crate::prediction::Prediction;
use crate::record_ref::RecordRef;
use crate::timed_value::TimedValue;

/// An object of a page with its prediction: what a page keeps of it.
#[derive(Drop, PartialEq, Eq)]
pub struct Record {
    /// The key of the object.
    pub key: Key,
    /// The value of the object, and when it expires.
    pub value: TimedValue,
    /// How soon it is predicted to be asked for again.
    pub pred: Prediction,
}

impl Record {
    ghost use Rattle.record_pages.specs.Recs.{IsRecord, size};
    ghost use Rattle.record_pages.specs.Lent.{record_shown};

    /// How many bytes it takes on a page.
    pub fn size(&self) -> usize
        ensures { result ≡ size self.now }
    {
        RECORD_OVERHEAD + self.key.bytes().len() + self.value.value.bytes().len()
    }

    /// The record, lent.
    pub fn lent(&self) -> RecordRef<'_>
        ensures shown { record_shown result ≡ self.now }
        ensures lawful { IsRecord self.now }
    {
        RecordRef::new(&self.key, &self.value, self.pred)
    }
}
