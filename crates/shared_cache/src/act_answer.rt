// A call that was made.
use crate::response::Response;

/// What a call gave, and when it was done.
#[derive(Drop)]
pub struct ActAnswer {
    /// What it gave.
    pub outcome: Response,
    /// The stamp at which it was done.
    pub point: u64,
}
