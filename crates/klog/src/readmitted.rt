// What became of a record that was to enter the log anew.

/// What became of a record that was to enter the log anew.
#[derive(Clone, Copy, PartialEq, Eq)]
pub enum Readmitted {
    /// It is the newest live record of the log.
    Readmitted,
    /// No buffer had room for it, or its segment's number would have passed 2^62, and it is lost.
    Dropped,
    /// The device failed, and the live records of its page are lost.
    Fault,
    /// The page that was read is not the log's, or the record there is not the entry's. The live records of the page
    /// are lost.
    Damaged,
}
