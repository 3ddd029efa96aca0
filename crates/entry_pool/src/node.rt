// An item with its links.
use crate::pool_item::PoolItem;

/// An item with its links. A link is the number of another node, or `NONE`.
#[derive(Clone, Copy, PartialEq, Eq)]
pub struct Node {
    /// What is noted.
    pub item: PoolItem,
    /// The next node of the set's bucket, or the next free node.
    pub next: u32,
    /// The next older node.
    pub older: u32,
    /// The next newer node.
    pub newer: u32,
}

/// The link that leads nowhere.
pub const NONE: u32 = 2097151;
