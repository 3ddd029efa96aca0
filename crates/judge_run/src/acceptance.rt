// A history that is accepted.
use trace_file::Trace;

/// A history that is accepted, with its certificate.
#[derive(Drop)]
pub struct Acceptance {
    /// The history as it was judged, with a certificate with which it is accepted.
    pub trace: Trace,
    /// How many of its calls were recorded. The puts of values that were there from the start stand after them.
    pub recorded: usize,
}
