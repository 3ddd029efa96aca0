// Whether a move was given up.

/// Whether a move was given up.
#[derive(Clone, Copy, PartialEq, Eq)]
pub enum Aborted {
    /// The move is over.
    Aborted,
    /// No move with that number is in flight.
    StalePlan,
}
