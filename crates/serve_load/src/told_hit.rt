// A wrong hit, as it is told.
use crate::words::Known;
use record_pages::ValueBuffer;

/// A hit that was not right, as its caller met it.
#[derive(Drop)]
pub struct ToldHit {
    /// The number of the caller.
    pub caller: u16,
    /// The number of its operation, of which the first is 0.
    pub operation: u32,
    /// What it knew of the key that it looked up.
    pub known: Known,
    /// The bytes that were hit.
    pub found: ValueBuffer,
}
