// What a server gives a command.

/// What a server gives a command beside the request.
#[derive(Clone, Copy)]
pub struct CommandTurn {
    /// The moment, in seconds. It is the caller's, and may go backwards.
    pub moment: u64,
    /// The number that the last `flush_all` drew, or 0 before the first: an item whose cas unique is below it is not live.
    pub flushed: u64,
    /// The word of admission: it decides whether the pair that leaves memory for a store enters the log.
    pub word: u32,
}
