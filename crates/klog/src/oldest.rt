use klog_index::Entry;

/// What is live in the oldest segment on the device.
#[derive(Clone, Copy, PartialEq, Eq)]
pub enum Oldest {
    /// No segment is on the device.
    NoSegment,
    /// None of its records is live, so the segment may be freed.
    Empty,
    /// Each of its live records is of a set that was to be passed over.
    Passed,
    /// Its live entry of least page, then slot, of those of other sets.
    First(Entry),
}
