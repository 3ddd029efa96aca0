// A call that a pass lists, lent.
use recorded_lane::NotedRef;

/// A call as the pass of its caller lists it, with its bytes lent by the pass.
#[derive(Clone, Copy)]
pub(crate) struct ListedRef<'a> {
    /// The number of the lane that recorded it.
    pub(crate) lane: u32,
    /// Its position in the lane's record, counted from 0.
    pub(crate) position: usize,
    /// The call, as the lane recorded it.
    pub(crate) call: NotedRef<'a>,
    /// The stamp at which it ended. Until that is drawn it is the call's point.
    pub(crate) end: u64,
}
