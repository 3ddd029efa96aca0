// Why a store refuses a put.
use thiserror::Error;

/// Why a put was refused. The store is as it was: an older value of the key stays.
#[derive(Clone, Copy, Debug, PartialEq, Eq, Error)]
pub enum PutFault {
    /// The object does not fit on a page.
    #[error("too large")]
    TooLarge,
    /// Memory was refused.
    #[error("out of memory")]
    OutOfMemory,
}
