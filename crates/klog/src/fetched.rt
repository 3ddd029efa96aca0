use record_pages::RecordRef;

/// What the reading of an entry's record gave.
#[derive(Clone, Copy)]
pub(crate) enum Fetched<'a> {
    /// The record, which has the entry's set and tag.
    Record(RecordRef<'a>),
    /// The device failed.
    Fault,
    /// The page is not the expected one, or the record there is not the entry's.
    Damaged,
}
