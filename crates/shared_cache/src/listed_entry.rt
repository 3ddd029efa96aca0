// What a pass keeps of a call that it lists.
use trace_file::StoredCall;

/// What a pass keeps of a call that it lists, whose bytes lie in the pass's store.
#[derive(Clone, Copy)]
pub(crate) struct ListedEntry {
    /// The number of the lane that recorded it.
    pub(crate) lane: u32,
    /// Its position in the lane's record, counted from 0.
    pub(crate) position: usize,
    /// The stamp at which it ended. Until that is drawn it is the call's point.
    pub(crate) end: u64,
    /// The call, as the lane recorded it, with its point for its end.
    pub(crate) entry: StoredCall,
}
