// What the record of an entry says of a key.

/// What the record of an entry says of a key.
#[derive(Clone, Copy)]
pub(crate) enum RecordAnswer {
    /// It has the key and is live at the moment, expires then, and its value is in the buffer.
    Hit(u64),
    /// It has the key, and has expired.
    Expired,
    /// It has another key.
    Other,
    /// The device failed.
    Fault,
    /// The page is not the expected one, or the record there is not the entry's.
    Damaged,
}
