// Where a reader of requests stands.

use crate::exptime::Exptime;

/// Where a reader of requests stands.
#[derive(Clone, Copy)]
pub enum ReaderState {
    /// At the start of a line.
    Line,
    /// Among the keys of `Get`, or of `GetAndTouch` if there is an expiry.
    Keys {
        exptime: Option<Exptime>,
        with_cas: bool,
    },
    /// In a line that is passed over.
    SkipLine,
    /// Before so many bytes that are passed over.
    SkipData(u64),
    /// Whatever comes is passed over: the connection is to be closed.
    Closed,
}
