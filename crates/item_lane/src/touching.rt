// Touches of items.
ghost use Rattle.std.specs.Prelude.{◌≡◌, IfSome};
ghost use Rattle.std.specs.Option.{option_map};
ghost use Rattle.record_pages.specs.Bounded.{IsKey, IsValue};
ghost use Rattle.item_lane.specs.Cells.{kept_shown};
ghost use Rattle.item_lane.specs.Plans.{plan_shown};
ghost use Rattle.item_lane.specs.Choosing.{touch_plan};
ghost use Rattle.item_lane.specs.Doing.{Does, DoesAndGives};

use crate::cache_item::CacheItem;
use crate::command_reply::CommandReply;
use crate::command_turn::CommandTurn;
use crate::command_verdict::{CommandVerdict, ItemParts};
use crate::follow::follow;
use crate::head::Head;
use crate::look::{live_item, look};
use page_device::PageDevice;
use record_pages::{PutFault, ValueBuffer};
use service_lane::ServiceLane;
use std::alloc::Global;

/// An item, and what a touch of it replied.
#[derive(Clone, Copy)]
pub struct Touched<'a> {
    /// The live item as it was, if there is one.
    pub item: Option<CacheItem<'a>>,
    /// What the touch replied.
    pub reply: Result<CommandReply, PutFault>,
}

/// `touch`: gives the live item of a key another expiry. All else stays, its cas unique too. It replies `Touched` or `NotFound`.
///
/// A refusal removes the key, as that of `set` does: `TooLarge` comes if an item that never expired has no room for an expiry.
pub fn touch<D: PageDevice<PAGE>, const PAGE: usize>(
    lane: &mut ServiceLane<D, PAGE>,
    alloc: Global,
    key: &[u8],
    expires: Option<u32>,
    turn: CommandTurn,
    found: &mut ValueBuffer,
) -> Result<CommandReply, PutFault>
    requires { IsKey key.now }
    ensures { Does PAGE D.honest D.failures D.held key.now turn (touch_plan expires)
        lane.old result lane.new }
{
    let seen = look(lane, key, turn, found);
    let live = live_item(seen, found.bytes(), turn.flushed);
    follow(lane, alloc, key, turn.word, touch_verdict(expires, live))
}

/// `gat`: touches the live item of a key, and gives the item as it was. Its data lie in the buffer.
pub fn get_and_touch<'a, D: PageDevice<PAGE>, const PAGE: usize>(
    lane: &mut ServiceLane<D, PAGE>,
    alloc: Global,
    key: &[u8],
    expires: Option<u32>,
    turn: CommandTurn,
    found: &'a mut ValueBuffer,
) -> Touched<'a>
    requires { IsKey key.now }
    ensures does { DoesAndGives PAGE D.honest D.failures D.held key.now turn (touch_plan expires)
        lane.old result.item result.reply lane.new }
    ensures within { IfSome result.item (λ item. IsValue item.bytes.now) }
{
    let seen = look(lane, key, turn, found);
    let item = live_item(seen, found.bytes(), turn.flushed);
    let reply = follow(lane, alloc, key, turn.word, touch_verdict(expires, item));
    Touched { item, reply }
}

// What a touch does about the live item.
fn touch_verdict(expires: Option<u32>, live: Option<CacheItem<'_>>) -> CommandVerdict<'_>
    ensures { plan_shown result ≡ touch_plan expires (option_map kept_shown live.entry) }
{
    match live {
        None => CommandVerdict::Keep(CommandReply::NotFound),
        Some(item) => {
            let head = Head {
                expires,
                ..item.head
            };
            let touched = CacheItem {
                head,
                bytes: item.bytes,
            };
            CommandVerdict::Store(ItemParts::of(touched), CommandReply::Touched)
        }
    }
}
