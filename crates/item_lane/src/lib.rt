//! What each command of memcached's protocol does to a lane of a cache, each in one call, so in one hold of the lane's lock.
//!
//! An item lies in a value of the lane as a cell: a byte of marks, its cas unique, its flags and its expiry if it has them, and
//! its data. The words are those of memcached's doc/protocol.txt (1.6). Sockets and the text of requests are not here.
#![tactic(auto)]

mod cache_item;
mod change;
mod command_reply;
mod command_turn;
mod command_verdict;
mod condition;
mod counting;
mod deleting;
mod expiry_change;
mod follow;
mod head;
mod head_text;
mod item_marks;
mod item_reply;
mod look;
mod meta_counting;
mod meta_deleting;
mod meta_getting;
mod meta_storing;
mod storing;
mod touching;

pub use cache_item::CacheItem;
pub use change::Change;
pub use command_reply::CommandReply;
pub use command_turn::CommandTurn;
pub use condition::{Condition, StoreMode};
pub use counting::{Delta, change_number};
pub use deleting::delete;
pub use expiry_change::ExpiryChange;
pub use head::Head;
pub use head_text::HeadText;
pub use item_marks::ItemMarks;
pub use item_reply::ItemReply;
pub use look::get;
pub use meta_counting::{InitialNumber, MetaDelta, meta_arithmetic};
pub use meta_deleting::{Invalidation, MetaDelete, meta_delete};
pub use meta_getting::{MetaGet, Recache, Vivify, meta_get};
pub use meta_storing::{MetaMode, MetaSet, meta_set};
pub use storing::{set, store_if};
pub use touching::{Touched, get_and_touch, touch};
