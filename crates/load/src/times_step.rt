// The next step of a list of times.
use crate::times::Times;
use std::snapshot::Snapshot;

/// The next step of a list of times, with what lies before it, as clauses see it: it has no bytes.
#[derive(Drop)]
pub(crate) enum TimesStep {
    /// Nothing was added yet.
    Begun,
    /// Then one time was added.
    Added(Snapshot<Times>, Snapshot<u64>),
    /// Then the times of another list were added.
    Merged(Snapshot<Times>, Snapshot<Times>),
}
