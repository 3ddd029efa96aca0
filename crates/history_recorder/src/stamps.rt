// Who makes a call, and when.

/// The caller of a call, and the stamps that the call has before its end is drawn.
#[derive(Clone, Copy)]
pub struct Stamps {
    /// The number of the caller.
    pub caller: u16,
    /// The stamp at which the call started.
    pub start: u64,
    /// The stamp at which it is done, above its start.
    pub point: u64,
}
