// A record whose bytes are lent, by a page or by an owner.
ghost use Rattle.std.specs.Prelude.{◌≡◌, IfOk, IsTrue, OnErr};

use crate::key::Key;
use crate::object::RECORD_OVERHEAD;
use crate::prediction::Prediction;
use crate::record::Record;
use crate::timed_value::{TimedValue, is_live};
use crate::value::Value;
use std::alloc::{AllocError, Global};

/// A record with the bytes of its key and value lent by a page or an owner.
#[derive(Clone, Copy)]
pub struct RecordRef<'a> {
    /// The bytes of the key.
    pub key: &'a [u8],
    /// The bytes of the value.
    pub value: &'a [u8],
    /// When the value expires, or `NEVER`.
    pub expires: u64,
    /// The number of the prediction.
    pub prediction: u8,
}

ghost use Rattle.record_pages.specs.Expiry.{is_live, timed, value_at};
ghost use Rattle.record_pages.specs.Recs.{IsRecord, rec, size};
ghost use Rattle.record_pages.specs.Lent.{record_shown};

impl<'a> RecordRef<'a> {
    /// The record of this key and value with this prediction.
    pub fn new(key: &'a Key, value: &'a TimedValue, prediction: Prediction) -> RecordRef<'a>
        ensures shown { record_shown result ≡ rec key.entry.now value.entry.now prediction }
        ensures lawful { IsRecord (record_shown result) }
    {
        RecordRef {
            key: key.bytes(),
            value: value.value.bytes(),
            expires: value.expires(),
            prediction: prediction.get(),
        }
    }

    /// How many bytes it takes on a page.
    pub fn size(self) -> usize
        requires { IsRecord (record_shown self) }
        ensures { result ≡ size (record_shown self.entry) }
    {
        RECORD_OVERHEAD + self.key.len() + self.value.len()
    }

    /// A copy of the value with bytes of its own, if it is live at the moment. `AllocError` if memory was refused for
    /// it.
    pub fn value_at(self, alloc: Global, moment: u64) -> Result<Option<Value>, AllocError>
        requires { IsRecord (record_shown self) }
        ensures value { IfOk result (λ value.
            value ≡ value_at moment (record_shown self.entry).value) }
        ensures refused { OnErr result (IsTrue (is_live self.entry.expires moment)) }
    {
        if !is_live(self.expires, moment) {
            return Ok(None);
        }
        match Value::new(alloc, self.value) {
            Ok(value) => Ok(Some(value)),
            Err(_) => Err(AllocError),
        }
    }

    /// A copy of the value with bytes of its own and when it expires, or `AllocError` if memory was refused.
    pub fn to_value(self, alloc: Global) -> Result<TimedValue, AllocError>
        requires { IsRecord (record_shown self) }
        ensures { IfOk result (λ value. value ≡ timed self.entry.value.now self.entry.expires) }
    {
        let Ok(value) = Value::new(alloc, self.value) else {
            return Err(AllocError);
        };
        Ok(TimedValue {
            value,
            expires: self.expires,
        })
    }

    /// A copy of the record with bytes of its own, or `AllocError` if memory was refused.
    pub fn to_record(self, alloc: Global) -> Result<Record, AllocError>
        requires { IsRecord (record_shown self) }
        ensures { IfOk result (λ r. r ≡ record_shown self.entry) }
    {
        let Ok(key) = Key::new(alloc, self.key) else {
            return Err(AllocError);
        };
        let value = self.to_value(alloc)?;
        let pred = Prediction::new(self.prediction).unwrap();
        Ok(Record { key, value, pred })
    }
}
