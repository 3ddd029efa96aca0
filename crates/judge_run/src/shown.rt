use trace_file::TraceFault;

/// The outcome of writing a trace as text.
#[derive(Clone, Copy, PartialEq, Eq)]
pub enum Shown {
    /// All was written.
    Whole,
    /// The input is no trace for this reason, and a line was written that says so.
    BadTrace(TraceFault),
    /// The call at this position has a stamp or a time of 2^63 or more, which has no text. The lines of the calls before it were written.
    TooLate {
        /// The position of the call.
        position: usize,
    },
}
