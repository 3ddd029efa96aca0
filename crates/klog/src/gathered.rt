use crate::taken_record::TakenRecords;
use klog_index::Entry;

/// What a reading of a set's records gave.
#[derive(Drop)]
pub(crate) enum Gathered {
    /// The newest live records of the set, newest first.
    Records(TakenRecords),
    /// The page with the record of this entry is lost.
    Lost(Entry),
}
