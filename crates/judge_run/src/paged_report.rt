// The report of judging a text, its outcome, and its page.
use crate::outcome::Outcome;

/// The report to be written, the outcome of judging, and the page of the history, if that is wanted and one was judged.
#[derive(Drop)]
pub(crate) struct PagedReport {
    /// The answer, whole.
    pub(crate) text: String,
    pub(crate) outcome: Outcome,
    pub(crate) page: Option<Vec<u8>>,
}
