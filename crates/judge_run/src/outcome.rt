// The outcome of judging, besides its report.
use crate::acceptance::Acceptance;
use crate::rejection::Rejection;
use history_text::BadLine;
use trace_file::TraceFault;

/// The outcome of judging a history or a trace.
#[derive(Drop)]
pub enum Outcome {
    /// The history is accepted, with a certificate.
    Accepted(Acceptance),
    /// The history is rejected, for this reason.
    Rejected(Rejection),
    /// Nothing was found wrong, and this many hits can have read several puts.
    Undecided(usize),
    /// The input was a text with this first bad line.
    BadLine(BadLine),
    /// The input was no trace, for this reason.
    BadTrace(TraceFault),
}
