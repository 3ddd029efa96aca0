// The rewrite of one set.
use crate::item::Items;

/// The rewrite of one set, of which a policy makes a plan.
#[derive(Drop)]
pub struct Job {
    /// The number of the move.
    pub number: u64,
    /// The set that is rewritten.
    pub set: u32,
    /// How many bytes the kept items may take together.
    pub room: u32,
    /// The items of the set's page in page order, then the fresh ones, newest first.
    pub items: Items,
}
