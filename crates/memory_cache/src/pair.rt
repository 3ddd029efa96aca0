// An object in memory.
use record_pages::{Key, TimedValue};

/// A key and its value with when that expires.
#[derive(Drop)]
pub struct Pair {
    pub key: Key,
    pub value: TimedValue,
}
