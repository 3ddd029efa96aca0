// What memory has of a key.
use record_pages::TimedValue;

/// What memory has of a key at a moment.
#[derive(Clone, Copy)]
pub(crate) enum MemoryAnswer<'a> {
    /// This value, which is live.
    Live(&'a TimedValue),
    /// A value that has expired.
    Expired,
    /// No value.
    Absent,
}
