// What was taken of a stream of bytes.
use crate::certificate::Certificate;
use crate::header::Header;
use crate::history::History;

/// What was taken of a stream of bytes: its header, and the calls and positions so far.
#[derive(Drop)]
pub(crate) struct TraceSoFar {
    pub(crate) header: Option<Header>,
    pub(crate) history: History,
    pub(crate) certificate: Certificate,
}
