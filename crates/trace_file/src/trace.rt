// A history with its certificate.
use crate::certificate::Certificate;
use crate::history::History;

/// A history, and the order that it is claimed to have.
#[derive(Drop)]
pub struct Trace {
    /// The recorded calls.
    pub history: History,
    /// The order of the calls, by their positions in the history.
    pub certificate: Certificate,
}
