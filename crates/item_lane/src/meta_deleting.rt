// Meta deletes.
ghost use Rattle.std.specs.Prelude.{◌≡◌};
ghost use Rattle.std.specs.Option.{option_map};
ghost use Rattle.record_pages.specs.Bounded.{IsKey};
ghost use Rattle.item_lane.specs.Cells.{kept_shown};
ghost use Rattle.item_lane.specs.Plans.{plan_shown, parts_shown};
ghost use Rattle.item_lane.specs.Meta.{invalidated, end_plan, meta_delete_plan};
ghost use Rattle.item_lane.specs.Doing.{Does};

use crate::cache_item::CacheItem;
use crate::command_reply::CommandReply;
use crate::command_turn::CommandTurn;
use crate::command_verdict::{CommandVerdict, ItemParts};
use crate::condition::agrees;
use crate::expiry_change::ExpiryChange;
use crate::follow::follow;
use crate::head::Head;
use crate::look::{live_item, look};
use page_device::PageDevice;
use record_pages::{PutFault, ValueBuffer};
use service_lane::ServiceLane;
use std::alloc::Global;

/// What a meta delete does.
#[derive(Clone, Copy)]
pub struct MetaDelete {
    /// `C`: the cas unique that the live item must have, if one is asked for.
    pub compare: Option<u64>,
    /// `I`: how the item is marked as stale, if it is to stay.
    pub invalidation: Option<Invalidation>,
}

/// How an item is marked as stale.
#[derive(Clone, Copy)]
pub struct Invalidation {
    /// The cas unique that it gets.
    pub cas: u64,
    /// `T`: what becomes of its expiry.
    pub touch: ExpiryChange,
}

/// `md`: removes the item of a key, or marks it as stale, if it has the number that is asked for, if one is. An item that is
/// marked keeps its data and flags; a client that refreshes it is chosen anew.
///
/// It replies `Deleted`, `Invalidated`, `Exists` if the live item has another number, which changes nothing, or `NotFound`. The
/// key is removed at `NotFound` too, as a delete does. A store that is refused removes the key, as that of `set` does.
pub fn meta_delete<D: PageDevice<PAGE>, const PAGE: usize>(
    lane: &mut ServiceLane<D, PAGE>,
    alloc: Global,
    key: &[u8],
    request: MetaDelete,
    turn: CommandTurn,
    found: &mut ValueBuffer,
) -> Result<CommandReply, PutFault>
    requires { IsKey key.now }
    ensures { Does PAGE D.honest D.failures D.held key.now turn (meta_delete_plan request)
        lane.old result lane.new }
{
    let seen = look(lane, key, turn, found);
    let live = live_item(seen, found.bytes(), turn.flushed);
    let verdict = request.verdict(live);
    follow(lane, alloc, key, turn.word, verdict)
}

impl MetaDelete {
    // What a meta delete does about the live item.
    fn verdict(self, live: Option<CacheItem<'_>>) -> CommandVerdict<'_>
        ensures { plan_shown result ≡ meta_delete_plan self (option_map kept_shown live.entry) }
    {
        match live {
            None => CommandVerdict::Remove(CommandReply::NotFound),
            Some(item) if agrees(self.compare, &item.head) => self.end_verdict(item),
            Some(_) => CommandVerdict::Keep(CommandReply::Exists),
        }
    }

    // What it does about an item that has the number.
    fn end_verdict(self, item: CacheItem<'_>) -> CommandVerdict<'_>
        ensures { plan_shown result ≡ end_plan self.invalidation (kept_shown item.entry) }
    {
        match self.invalidation {
            None => CommandVerdict::Remove(CommandReply::Deleted),
            Some(invalidation) => {
                CommandVerdict::Store(invalidation.parts(item), CommandReply::Invalidated)
            }
        }
    }
}

impl Invalidation {
    // An item that was marked as stale.
    fn parts(self, item: CacheItem<'_>) -> ItemParts<'_>
        ensures { parts_shown result ≡ invalidated self (kept_shown item.entry) }
    {
        let head = Head {
            flags: item.head.flags,
            cas: self.cas,
            expires: self.touch.after(item.head.expires),
            is_stale: true,
            is_won: false,
        };
        ItemParts {
            head,
            front: &[],
            back: item.bytes,
        }
    }
}
