// A value with the moment at which it expires.
ghost use Rattle.std.specs.Prelude.{◌≡◌, IfOk, IsTrue, OnErr};
ghost use Rattle.record_pages.specs.Expiry.{is_live, lasting, value_at};

use crate::value::Value;
use std::alloc::AllocError;

/// The `expires` of a value that never expires: it is live at every moment, also at the last one.
pub const NEVER: u64 = u64::MAX;

/// Whether a value that expires then is live at the moment: before its moment, or if it is `NEVER`.
pub fn is_live(expires: u64, moment: u64) -> bool
    ensures { result ≡ is_live expires moment }
{
    moment < expires || expires == NEVER
}

/// A value with the moment at which it expires. The tiers keep the two as one thing.
#[derive(Drop, PartialEq, Eq)]
pub struct TimedValue {
    /// The value.
    pub value: Value,
    /// The first moment at which it is not live any more, or `NEVER`.
    pub expires: u64,
}

impl TimedValue {
    /// The value, which never expires.
    pub fn lasting(value: Value) -> TimedValue
        ensures { result ≡ lasting value }
    {
        TimedValue {
            value,
            expires: NEVER,
        }
    }

    /// The first moment at which it is not live any more, or `NEVER`.
    pub fn expires(&self) -> u64
        ensures { result ≡ self.now.expires }
    {
        self.expires
    }

    /// Whether it is live at the moment.
    pub fn is_live(&self, moment: u64) -> bool
        ensures { result ≡ is_live self.now.expires moment }
    {
        is_live(self.expires, moment)
    }

    /// A copy of the value, if it is live at the moment. `AllocError` if memory was refused for it.
    pub fn value_at(&self, moment: u64) -> Result<Option<Value>, AllocError>
        ensures value { IfOk result (λ value. value ≡ value_at moment self.now) }
        ensures refused { OnErr result (IsTrue (is_live self.now.expires moment)) }
    {
        if !self.is_live(moment) {
            return Ok(None);
        }
        let value = self.value.try_clone()?;
        Ok(Some(value))
    }

    /// A copy, or `AllocError` if memory was refused.
    pub fn try_clone(&self) -> Result<TimedValue, AllocError>
        ensures { IfOk result (λ copy. copy ≡ self.now) }
    {
        let value = self.value.try_clone()?;
        Ok(TimedValue {
            value,
            expires: self.expires,
        })
    }
}
