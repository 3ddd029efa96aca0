// A record that was taken from the log.
use klog_index::Place;
use record_pages::{ItemList, Record};

/// A live record of the log, as it was taken.
#[derive(Drop, PartialEq, Eq)]
pub struct TakenRecord {
    /// Its key, its value, and the prediction that its entry has now.
    pub stored: Record,
    /// Where it lies.
    pub place: Place,
    /// The number of its segment. A later segment may have the same name in places.
    pub segment: u64,
}

/// The records that were taken of a set, newest first.
pub type TakenRecords = ItemList<TakenRecord>;
