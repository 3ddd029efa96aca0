// What became of a copy that left memory.

/// What became of a copy that memory had no room for.
#[derive(Clone, Copy, PartialEq, Eq)]
pub enum CopyFate {
    /// The tiers on flash may show its key, so it was dropped.
    Known,
    /// It fits on no page, and is lost.
    TooLarge,
    /// It entered the log.
    Logged,
    /// The log had no place for it, and it is lost.
    Full,
    /// The log's index had no place for it, and it is lost.
    IndexFull,
}
