// What a read of a line gave.

/// What a read of a line gave.
#[derive(Clone, Copy, PartialEq, Eq)]
pub enum LineRead {
    /// A line, not too long.
    Line,
    /// More bytes than a line may have, with no line feed.
    TooLong,
    /// The input is at its end.
    End,
}
