// What a search for a key in the log finds.
use klog_index::Entry;

/// What a search for a key in the log finds at a moment.
#[derive(Clone, Copy, PartialEq, Eq)]
pub enum LocatedInLog {
    /// The newest live record with the key is this entry's. It is live at the moment, expires then (`NEVER` if it does not),
    /// and its value is in the buffer.
    Hit { entry: Entry, expires: u64 },
    /// The newest live record with the key has expired.
    Expired,
    /// No live record has the key.
    Absent,
    /// The device failed.
    Fault,
    /// A page that was read is not the log's, or the record there is not the entry's.
    Damaged,
}
