// A script's calls as a history with its certificate.
use trace_file::{Certificate, History};

/// A history and the certificate of its order.
#[derive(Drop)]
pub struct Recording {
    pub history: History,
    pub certificate: Certificate,
}
