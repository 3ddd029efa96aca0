// Why an item was not read.
use crate::trace_fault::TraceFault;

/// Why an item was not read from the bytes that are there.
#[derive(Clone, Copy, PartialEq, Eq)]
pub(crate) enum ItemFault {
    /// The bytes end before the item does, and no fault was met.
    Short,
    /// A fault was met.
    Fault(TraceFault),
}
