// How a store depends on the item that is there.
ghost use Rattle.std.specs.Prelude.{◌≡◌};
ghost use Rattle.std.specs.Option.{option_map};
ghost use Rattle.item_lane.specs.Cells.{kept_shown};
ghost use Rattle.item_lane.specs.Plans.{plan_shown, parts_shown};
ghost use Rattle.item_lane.specs.Choosing.{agrees, is_older, absent_plan, present_plan, older_plan, store_plan, over, stale_over};

use crate::cache_item::CacheItem;
use crate::command_reply::CommandReply;
use crate::command_verdict::{CommandVerdict, ItemParts};
use crate::head::Head;

/// How a store depends on the live item of its key.
#[derive(Clone, Copy)]
pub enum StoreMode {
    /// Stores only if there is none.
    Add,
    /// Stores only if there is one.
    Replace,
    /// Stores the data after those of the item, only if there is one.
    Append,
    /// Stores the data before those of the item, only if there is one.
    Prepend,
    /// Stores only if there is one. Over an item with a greater number than the one to compare it stores a stale item, which has
    /// the expiry of the one that was there, and its mark of a client that won.
    Invalidate,
}

/// When a store is made. The command `cas` is `Replace` with a number to compare.
#[derive(Clone, Copy)]
pub struct Condition {
    /// How it depends on the live item.
    pub mode: StoreMode,
    /// The cas unique that the live item must have, if one is asked for. `Add` does not look at it.
    pub compare: Option<u64>,
}

impl Condition {
    // What a store of an item does about the live one.
    pub(crate) fn verdict<'a>(
        self,
        given: CacheItem<'a>,
        live: Option<CacheItem<'a>>,
    ) -> CommandVerdict<'a>
        ensures { plan_shown result
            ≡ store_plan self (kept_shown given.entry) (option_map kept_shown live.entry) }
    {
        match live {
            None => self.absent_verdict(given),
            Some(item) => self.present_verdict(given, item),
        }
    }

    // What a store of an item does if none is live.
    fn absent_verdict(self, given: CacheItem<'_>) -> CommandVerdict<'_>
        ensures { plan_shown result ≡ absent_plan self.mode self.compare (kept_shown given.entry) }
    {
        match self.mode {
            StoreMode::Add => CommandVerdict::Store(ItemParts::of(given), CommandReply::Stored),
            StoreMode::Replace | StoreMode::Invalidate if self.compare.is_some() => {
                CommandVerdict::Keep(CommandReply::NotFound)
            }
            StoreMode::Replace | StoreMode::Append | StoreMode::Prepend | StoreMode::Invalidate =>
                CommandVerdict::Keep(CommandReply::NotStored),
        }
    }

    // What a store of an item does if one is live.
    fn present_verdict<'a>(self, given: CacheItem<'a>, item: CacheItem<'a>) -> CommandVerdict<'a>
        ensures { plan_shown result
            ≡ present_plan self.mode self.compare (kept_shown given.entry) (kept_shown item.entry) }
    {
        if self.mode == StoreMode::Add {
            return CommandVerdict::Keep(CommandReply::NotStored);
        }
        if agrees(self.compare, &item.head) {
            return CommandVerdict::Store(stored_over(self.mode, given, item), CommandReply::Stored);
        }
        if self.mode == StoreMode::Invalidate {
            return older_verdict(self.compare, given, item);
        }
        CommandVerdict::Keep(CommandReply::Exists)
    }
}

// What a store that invalidates does about an item that has another number than the one that is asked for.
fn older_verdict<'a>(
    compare: Option<u64>,
    given: CacheItem<'a>,
    item: CacheItem<'a>,
) -> CommandVerdict<'a>
    ensures { plan_shown result ≡ older_plan compare (kept_shown given.entry) (kept_shown item.entry) }
{
    if !is_older(compare, &item.head) {
        return CommandVerdict::Keep(CommandReply::Exists);
    }
    let head = Head {
        flags: given.head.flags,
        cas: given.head.cas,
        expires: item.head.expires,
        is_stale: true,
        is_won: item.head.is_won,
    };
    let stale = CacheItem {
        head,
        bytes: given.bytes,
    };
    CommandVerdict::Store(ItemParts::of(stale), CommandReply::Stored)
}

// Whether the number that is asked for is lower than the item's.
fn is_older(compare: Option<u64>, head: &Head) -> bool
    ensures { result ≡ is_older compare head.now }
{
    match compare {
        Some(cas) => cas < head.cas,
        None => false,
    }
}

// Whether an item has the number that is asked for, if one is.
pub(crate) fn agrees(compare: Option<u64>, head: &Head) -> bool
    ensures { result ≡ agrees compare head.now }
{
    match compare {
        Some(cas) => cas == head.cas,
        None => true,
    }
}

// What is stored over a live item.
fn stored_over<'a>(mode: StoreMode, given: CacheItem<'a>, item: CacheItem<'a>) -> ItemParts<'a>
    ensures { parts_shown result ≡ over mode (kept_shown given.entry) (kept_shown item.entry) }
{
    let head = item.head.renewed(given.head.cas);
    match mode {
        StoreMode::Add | StoreMode::Replace | StoreMode::Invalidate => ItemParts::of(given),
        StoreMode::Append => ItemParts {
            head,
            front: item.bytes,
            back: given.bytes,
        },
        StoreMode::Prepend => ItemParts {
            head,
            front: given.bytes,
            back: item.bytes,
        },
    }
}
