use thiserror::Error;

/// Why a trace was not written.
#[derive(Clone, Copy, Debug, PartialEq, Eq, Error)]
pub enum WriteTraceFault {
    /// There are more than 268,435,456 calls. Nothing was written.
    #[error("too many calls for a trace")]
    TooMany,
    /// The certificate has not as many places as the history has calls. Nothing was written.
    #[error("the certificate has another number of places than the history has calls")]
    WrongCount,
    /// The writer failed. It may have taken a front of the trace.
    #[error("the trace was not written")]
    WriteFault,
}
