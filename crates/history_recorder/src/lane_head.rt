// Where a lane stands that is being listed.

/// Which of a lane's calls a certificate lists so far: its first ones.
#[derive(Clone, Copy)]
pub(crate) struct LaneHead {
    /// The position of the lane's first call in the history.
    pub(crate) first: u32,
    /// How many of the lane's calls are listed.
    pub(crate) listed: usize,
}
