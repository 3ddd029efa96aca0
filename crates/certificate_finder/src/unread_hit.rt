// A hit that can have read none of its puts, since each would be crossed.
use crate::faults::CrossedWrites;

/// A hit that read no put: whichever it read, two writes of its key would each have to stand before the other.
#[derive(Drop)]
pub struct UnreadHit {
    /// The hit's position.
    pub hit: u32,
    /// The puts that the hit can have read, each with what it would be crossed with: all of them in what `find` tells, the first so many
    /// in what `find_faults` lists. The put is the write of the first side, and the hit may be one of that side's two calls.
    pub reads: Vec<CrossedWrites>,
}
