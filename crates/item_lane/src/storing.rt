// Stores of items.
ghost use Rattle.std.specs.Prelude.{◌≡◌};
ghost use Rattle.record_pages.specs.Bounded.{IsKey};
ghost use Rattle.item_lane.specs.Cells.{kept_shown};
ghost use Rattle.item_lane.specs.Choosing.{set_plan, store_plan};
ghost use Rattle.item_lane.specs.Doing.{Follows, Does};

use crate::cache_item::CacheItem;
use crate::command_reply::CommandReply;
use crate::command_turn::CommandTurn;
use crate::command_verdict::{CommandVerdict, ItemParts};
use crate::condition::Condition;
use crate::follow::follow;
use crate::look::{live_item, look};
use page_device::PageDevice;
use record_pages::{PutFault, ValueBuffer};
use service_lane::ServiceLane;
use std::alloc::Global;

/// `set`: stores an item, whatever is there. Nothing is read. It replies `Stored`.
///
/// A refusal removes the key, so that no older item is hit: `TooLarge` if the cell has more than `Value::MAX_LEN` bytes or
/// fits on no page with its key, `OutOfMemory` if memory was refused.
pub fn set<D: PageDevice<PAGE>, const PAGE: usize>(
    lane: &mut ServiceLane<D, PAGE>,
    alloc: Global,
    key: &[u8],
    item: CacheItem<'_>,
    turn: CommandTurn,
) -> Result<CommandReply, PutFault>
    requires { IsKey key.now }
    ensures { Follows PAGE D.held key.now turn.word (set_plan (kept_shown item.entry))
        lane.old result lane.new }
{
    let verdict = CommandVerdict::Store(ItemParts::of(item), CommandReply::Stored);
    follow(lane, alloc, key, turn.word, verdict)
}

/// `add`, `replace`, `append`, `prepend` and `cas`, and `ms` that invalidates: stores an item if the condition holds of the live
/// one. The head brings the number that the item gets; an appended or prepended item keeps its flags and its expiry.
///
/// It replies `Stored`, `NotStored`, `Exists` or, for `Replace` with a number, `NotFound`. A store that is refused removes the
/// key, as `set` does; one that is not made changes nothing.
pub fn store_if<D: PageDevice<PAGE>, const PAGE: usize>(
    lane: &mut ServiceLane<D, PAGE>,
    alloc: Global,
    key: &[u8],
    condition: Condition,
    item: CacheItem<'_>,
    turn: CommandTurn,
    found: &mut ValueBuffer,
) -> Result<CommandReply, PutFault>
    requires { IsKey key.now }
    ensures { Does PAGE D.honest D.failures D.held key.now turn
        (store_plan condition (kept_shown item.entry)) lane.old result lane.new }
{
    let seen = look(lane, key, turn, found);
    let live = live_item(seen, found.bytes(), turn.flushed);
    let verdict = condition.verdict(item, live);
    follow(lane, alloc, key, turn.word, verdict)
}
