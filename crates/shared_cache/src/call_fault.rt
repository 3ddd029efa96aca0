// Why a call of a cache was refused.
use recorded_lane::Noted;
use thiserror::Error;

/// Why a call was refused. It is in no history, and its pass lists no call more.
///
/// They are tested in this order: `TooLarge`; `OutOfMemory` of room in the pass; `ClockFull` at the start; and in the hold of the lane's lock `WrongLane`, `HistoryLost`, `HistoryFull`, `ClockFull` at the point, `OutOfMemory`.
#[derive(Debug, Drop, Error)]
pub enum CallFault {
    /// The object does not fit on a page.
    #[error("too large")]
    TooLarge,
    /// Memory was refused.
    #[error("out of memory")]
    OutOfMemory,
    /// The clock would pass its last stamp.
    #[error("the clock is full")]
    ClockFull,
    /// The lane has recorded as many calls as it records.
    #[error("the history is full")]
    HistoryFull,
    /// The pass's former call of this lane does not stand at its position: another one does, or none.
    #[error("the call at position {position} of lane {lane} is not the one that was made")]
    HistoryLost {
        lane: u32,
        position: usize,
        found: Option<Noted>,
    },
    /// What stands in the place of the key's lane is another lane, or one of another configuration.
    #[error("the lane of the key is lost")]
    WrongLane,
}
