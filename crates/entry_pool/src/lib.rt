//! Pools of which all memory is taken when they are opened. The entries of an index lie in packed words, two an entry,
//! chained by age and by set; and hashes that are struck in sets in another, chained by set.
#![tactic(auto)]

mod by_age;
mod from_oldest;
mod in_set;
mod links;
mod node;
mod packed_node;
mod pool;
mod pool_item;
mod row;
mod strike_nodes;
mod strike_pool;
mod words;

pub use by_age::ByAge;
pub use from_oldest::FromOldest;
pub use in_set::InSet;
pub use node::{NONE, Node};
pub use packed_node::PackedNode;
pub use pool::EntryPool;
pub use pool_item::PoolItem;
pub use row::Row;
pub use strike_pool::StrikePool;
