// What is held of a text that is read piece by piece.
use crate::forgotten::Forgotten;
use crate::lined_calls::LinedCalls;
use history_text::TextHistory;
use std::hash::BuildHasher;

/// What is held of a text that is read piece by piece.
#[derive(Drop)]
pub(crate) struct Stream<S: BuildHasher> {
    /// The calls that stand for all that were judged. A piece is judged with them.
    pub(crate) kept: LinedCalls,
    /// The calls of a piece, then all that are judged with it, and none between two pieces; and the callers so far.
    pub(crate) text: TextHistory<S>,
    /// The hits that wait for the next piece: what they read may be still to come.
    pub(crate) waiting: LinedCalls,
    /// The stamp at which each call that is still to come starts or later.
    pub(crate) bound: u64,
    /// The last end of the calls so far that returned; 0 if there is none.
    pub(crate) latest: u64,
    /// What was judged and forgotten.
    pub(crate) forgotten: Forgotten,
}
