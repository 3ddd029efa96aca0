// What was read of a text.
use crate::text_history::TextHistory;
use std::hash::BuildHasher;

/// A text that was read to its end.
#[derive(Drop)]
pub struct ReadText<S: BuildHasher> {
    /// The history that it spells.
    pub text: TextHistory<S>,
    /// How many bad lines were passed over.
    pub skipped: u64,
}
