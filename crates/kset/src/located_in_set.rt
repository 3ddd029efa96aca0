// Where a set has a key.

/// What a look-up of a key in a set finds, whose value goes into room of the caller's.
#[derive(Clone, Copy, PartialEq, Eq)]
pub enum LocatedInSet {
    /// The first visible record with the key lies in this slot of the set's page. It is live at the moment, expires then
    /// (`NEVER` if it does not), and its value is in the buffer.
    Hit { slot: usize, expires: u64 },
    /// The first visible record with the key has expired.
    Expired,
    /// No visible record has the key.
    Absent,
    /// The device failed.
    Fault,
    /// What was read is not the set's page.
    Damaged,
}
