// What became of the pair that a put pushed out of memory.

/// The fate of the pair that left memory for a new one.
#[derive(Clone, Copy, PartialEq, Eq)]
pub enum Pushed {
    /// Nothing was pushed out.
    Nobody,
    /// The pair was not admitted to flash, and is lost.
    Declined,
    /// The pair was appended to the log.
    Logged,
    /// The log had no room, and the pair is lost.
    Full,
    /// The log's index had no free entry, and the pair is lost.
    IndexFull,
}
