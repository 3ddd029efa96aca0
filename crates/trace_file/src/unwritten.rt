// The failure to write all bytes.
use thiserror::Error;

/// A writer failed, or takes no more, before all bytes were written.
#[derive(Clone, Copy, Debug, PartialEq, Eq, Error)]
#[error("not all bytes were written")]
pub struct Unwritten;
