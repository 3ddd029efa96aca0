// Where a record lies.

/// Where a record of the log lies.
#[derive(Clone, Copy, PartialEq, Eq)]
pub struct Place {
    /// The name of its segment, below 258.
    pub segment: u16,
    /// The page of the segment, below 64.
    pub page: u8,
    /// The place on the page, below 64.
    pub slot: u8,
}
