// A record of a set.
use record_pages::{ItemList, Record};

/// A visible record of a set.
#[derive(Drop, PartialEq, Eq)]
pub struct SetRecord {
    /// The record as it stands on the page.
    pub stored: Record,
    /// Whether it was hit since the page was written.
    pub hit: bool,
}

/// The visible records of a set, in page order.
pub type SetRecords = ItemList<SetRecord>;
