// The puts of a history, with their leaves.
use crate::put::Put;

/// The puts of a history in their order, each at a leaf by when it can last be read.
#[derive(Clone, Copy)]
pub(crate) struct LeavedPuts<'a> {
    /// The puts.
    pub(crate) puts: &'a [Put],
    /// The ranks of when they can last be read, in order.
    pub(crate) ends: &'a [u128],
    /// The leaf of each put.
    pub(crate) leaves: &'a [u32],
}
