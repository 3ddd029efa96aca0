// A row of the pool.
use crate::pool_item::PoolItem;

/// An item that the pool holds, with the number of its node.
#[derive(Clone, Copy, PartialEq, Eq)]
pub struct Row {
    /// The number of its node, which stays as long as it is held.
    pub at: u32,
    /// What is noted.
    pub item: PoolItem,
}
