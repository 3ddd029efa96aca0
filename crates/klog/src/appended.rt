// What became of a record that was to enter the log.

/// What became of a record that was to enter the log.
#[derive(Clone, Copy, PartialEq, Eq)]
pub enum Appended {
    /// It is the newest live record of the log.
    Appended,
    /// There are as many live records as the index may have. Nothing changed.
    IndexFull,
    /// No buffer has room for it, or its segment's number would pass 2^62. Nothing changed.
    Full,
}
