// A call that may be the next one of a certificate.

/// The first call of a lane that is not listed yet.
#[derive(Clone, Copy)]
pub(crate) struct NextCall {
    /// The number of the lane.
    pub(crate) lane: usize,
    /// The point of the call.
    pub(crate) point: u64,
}
