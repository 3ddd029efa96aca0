// What a command does about the item that it saw.
ghost use Rattle.std.specs.Prelude.{◌≡◌};
ghost use Rattle.item_lane.specs.Cells.{kept_shown};
ghost use Rattle.item_lane.specs.Plans.{parts_shown};

use crate::cache_item::CacheItem;
use crate::command_reply::CommandReply;
use crate::head::Head;

/// An item whose data are two parts, one after the other.
#[derive(Clone, Copy)]
pub(crate) struct ItemParts<'a> {
    pub(crate) head: Head,
    pub(crate) front: &'a [u8],
    pub(crate) back: &'a [u8],
}

impl<'a> ItemParts<'a> {
    /// Those of an item as it is.
    pub(crate) fn of(item: CacheItem<'a>) -> ItemParts<'a>
        ensures { parts_shown result ≡ kept_shown item.entry }
    {
        ItemParts {
            head: item.head,
            front: &[],
            back: item.bytes,
        }
    }
}

/// What a command does about the item that it saw, with its reply.
#[derive(Clone, Copy)]
pub(crate) enum CommandVerdict<'a> {
    /// It keeps what is there.
    Keep(CommandReply),
    /// It stores an item in place of what is there.
    Store(ItemParts<'a>, CommandReply),
    /// It removes the key.
    Remove(CommandReply),
}
