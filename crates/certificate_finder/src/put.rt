ghost use Rattle.std.specs.Prelude.{◌≡◌, ◌<◌, ◌↔◌, IsTrue, Some, length, slice_get};
ghost use Rattle.certificate_finder.specs.Putting.{expiry_at, value_rank as rank_of_value};

use crate::items::item_at;
use crate::numbered_call::NumberedCall;
use crate::write::Write;

/// A put, and until when it can be read.
#[derive(Clone, Copy)]
pub(crate) struct Put {
    /// Its position.
    pub(crate) position: u32,
    /// The number of its key.
    pub(crate) key: u32,
    /// The number of its value.
    pub(crate) value: u32,
    /// The stamp at which it started.
    pub(crate) start: u64,
    /// When its value expires.
    pub(crate) expires: u64,
    /// The stamp after which no hit that starts can have read it.
    pub(crate) dead: u64,
    /// The position of the write that ended then, if there is one.
    pub(crate) over: Option<u32>,
}

impl Put {
    ghost use Rattle.certificate_finder.specs.Putting.{IsPut, last_rank, put_rank};

    /// The put at this position, with the write that ends first of those after it.
    pub(crate) fn of(position: u32, step: &NumberedCall, over: Option<Write>) -> Put
        ensures { IsPut position step.now over result }
    {
        match over {
            Some(write) => Put {
                position,
                key: step.key,
                value: step.value,
                start: step.start,
                expires: step.time,
                dead: write.end,
                over: Some(write.position),
            },
            None => Put {
                position,
                key: step.key,
                value: step.value,
                start: step.start,
                expires: step.time,
                dead: u64::MAX,
                over: None,
            },
        }
    }

    /// By keys, values and starts.
    pub(crate) fn rank(&self) -> u128
        ensures { result ≡ put_rank self.now }
    {
        value_rank(self.key, self.value, self.start)
    }

    /// By keys, values and the last stamps at which they can be read.
    pub(crate) fn last(&self) -> u128
        ensures { result ≡ last_rank self.now }
    {
        value_rank(self.key, self.value, self.dead)
    }

    /// Whether it puts what the call puts or reads.
    pub(crate) fn is_like(&self, key: u32, value: u32) -> bool
        ensures { IsTrue result ↔ ((self.now.key ≡ key) × (self.now.value ≡ value)) }
    {
        self.key == key && self.value == value
    }
}

/// The rank of a stamp among those of all keys and values.
pub(crate) fn value_rank(key: u32, value: u32, stamp: u64) -> u128
    ensures { result ≡ rank_of_value key value stamp }
{
    (key as u128 * 4294967296 + value as u128) * 18446744073709551616 + stamp as u128
}

/// When the put at an index expires.
pub(crate) fn expiry(puts: &[Put], index: u32) -> u64
    requires { index < length puts.now }
    ensures { result ≡ expiry_at puts.now index }
{
    let put = item_at(puts, index as usize);
    put.expires
}
