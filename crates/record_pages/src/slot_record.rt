// A record that a look-up on a page found.
use crate::record_ref::RecordRef;

/// A record of a page, with the slot where it lies.
#[derive(Clone, Copy)]
pub struct SlotRecord<'a> {
    /// Its place among the records of the page, from 0.
    pub slot: usize,
    /// The record.
    pub lent: RecordRef<'a>,
}
