// When a call started and ended.

/// When a call started and ended, in stamps; or of several calls the greatest start and the least end.
#[derive(Clone, Copy)]
pub(crate) struct CallSpan {
    /// The start.
    pub(crate) start: u64,
    /// The end.
    pub(crate) end: u64,
}
