// An item, and what a command about it replied.

use crate::cache_item::CacheItem;
use crate::command_reply::CommandReply;
use record_pages::PutFault;

/// An item, and what a meta command about it replied.
#[derive(Clone, Copy)]
pub struct ItemReply<'a> {
    /// The live item as it was, if there was one.
    pub item: Option<CacheItem<'a>>,
    /// What the command replied.
    pub reply: Result<CommandReply, PutFault>,
}
