// Why a get finds nothing.

/// The cause of a miss.
#[derive(Clone, Copy, PartialEq, Eq)]
pub enum MissCause {
    /// No tier has the key.
    Absent,
    /// The first pair of the key is not live any more.
    Expired,
    /// The device failed while the key was looked up.
    Fault,
    /// A page read back was not the page that was expected there.
    Damaged,
}
