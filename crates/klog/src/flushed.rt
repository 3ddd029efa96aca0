// What a flush step did.

/// What a flush step did.
#[derive(Clone, Copy, PartialEq, Eq)]
pub enum Flushed {
    /// There was nothing to do.
    Nothing,
    /// A page was written.
    Wrote,
    /// The device failed, and the live records of the page are lost.
    PageLost,
    /// The segment that was filled is now the one that is flushed.
    Sealed,
    /// All segments of the device are in use. Nothing changed.
    LogFull,
}
