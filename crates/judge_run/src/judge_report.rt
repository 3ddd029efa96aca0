// The report of judging, and its outcome.
use crate::outcome::Outcome;

/// The report to be written, and the outcome of judging.
#[derive(Drop)]
pub(crate) struct JudgeReport {
    /// The answer, whole.
    pub(crate) text: String,
    pub(crate) outcome: Outcome,
}
