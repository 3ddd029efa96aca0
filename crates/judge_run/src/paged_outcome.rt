// The outcome of judging, with a page.
use crate::outcome::Outcome;

/// The outcome of judging, and the page of the history, if that is wanted and one was judged.
#[derive(Drop)]
pub struct PagedOutcome {
    /// The outcome of judging.
    pub outcome: Outcome,
    /// The bytes of the page, as an HTML file has them.
    pub page: Option<Vec<u8>>,
}
