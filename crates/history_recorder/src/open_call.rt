// A call that began.
use crate::operation::Operation;

/// A call that began, and was not done yet.
#[derive(Drop)]
pub(crate) struct OpenCall {
    /// The stamp at which it started.
    pub(crate) start: u64,
    /// What it asks.
    pub(crate) operation: Operation,
}
