// What a round of moving did.

/// What a round of moving did.
#[derive(Clone, Copy, PartialEq, Eq)]
pub enum Moved {
    /// No segment is on the device, or the lane has begun 2^62 moves.
    Nothing,
    /// 8 moves of the lane are in flight, or each live record of the oldest segment is of a set in flight.
    Busy,
    /// The first live record of the oldest segment entered the log anew.
    Readmitted,
    /// It was dropped.
    Dropped,
    /// A page was lost, and no move began.
    PageLost,
    /// The oldest segment had no live record, and is free.
    Freed,
    /// The records of its set moved.
    Written,
    /// The page of its set was not written, and the set is forgotten.
    Forgotten,
    /// The move was over before its plan came.
    StalePlan,
    /// The plan did not fit the move. It stays in flight.
    BadPlan,
}
