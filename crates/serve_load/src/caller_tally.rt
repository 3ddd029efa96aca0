// What a caller of a load counted.
use crate::caller_stop::CallerStop;

/// What a caller of a load counted until it ended, and why it did.
#[derive(Drop)]
pub(crate) struct CallerTally {
    /// Operations that it made.
    pub(crate) operations: u32,
    /// Those of them that were refused memory.
    pub(crate) refused: u32,
    /// Why it made no more.
    pub(crate) stop: CallerStop,
}
