// A recorded call, lent.
use trace_file::ActRef;

/// A recorded call whose end is not drawn yet, with the bytes of its key and value lent by its lane.
#[derive(Clone, Copy)]
pub struct NotedRef<'a> {
    /// The number of the caller.
    pub caller: u16,
    /// The stamp at which the call started.
    pub start: u64,
    /// The stamp at which it was done, above its start.
    pub point: u64,
    /// The bytes of its key.
    pub key: &'a [u8],
    /// What it did.
    pub act: ActRef<'a>,
}
