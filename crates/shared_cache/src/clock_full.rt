// The refusal of a clock.
use thiserror::Error;

/// The clock would pass its last stamp.
#[derive(Clone, Copy, Debug, PartialEq, Eq, Error)]
#[error("the clock is full")]
pub struct ClockFull;
