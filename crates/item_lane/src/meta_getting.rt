// Meta gets.
ghost use Rattle.std.specs.Prelude.{◌≡◌, Some, IfSome};
ghost use Rattle.std.specs.Option.{option_map};
ghost use Rattle.record_pages.specs.Bounded.{IsKey, IsValue};
ghost use Rattle.item_lane.specs.Cells.{kept_shown};
ghost use Rattle.item_lane.specs.Plans.{plan_shown, parts_shown};
ghost use Rattle.item_lane.specs.Meta.{ends_before, expiry_seen, is_due, wins, told, asked, vivified, vivify_plan, meta_get_plan};
ghost use Rattle.item_lane.specs.Doing.{DoesAndGives};

use crate::cache_item::CacheItem;
use crate::command_reply::CommandReply;
use crate::command_turn::CommandTurn;
use crate::command_verdict::{CommandVerdict, ItemParts};
use crate::expiry_change::ExpiryChange;
use crate::follow::follow;
use crate::head::Head;
use crate::item_marks::ItemMarks;
use crate::item_reply::ItemReply;
use crate::look::{live_item, look};
use page_device::PageDevice;
use record_pages::ValueBuffer;
use service_lane::ServiceLane;
use std::alloc::Global;

/// What a meta get does to the item that it asks for.
#[derive(Clone, Copy)]
pub struct MetaGet {
    /// `T`: what becomes of the expiry of an item that is hit.
    pub touch: ExpiryChange,
    /// `N`: what a miss stores, if it stores something.
    pub vivify: Option<Vivify>,
    /// `R`: when an item is to be refreshed before it expires.
    pub recache: Option<Recache>,
}

/// The empty item that a miss stores.
#[derive(Clone, Copy)]
pub struct Vivify {
    /// When it expires. In memcached that is what the later of `N` and `T` in the line says.
    pub expires: Option<u32>,
    /// Its cas unique.
    pub cas: u64,
}

/// When an item is to be refreshed before it expires.
#[derive(Clone, Copy)]
pub struct Recache {
    /// The item is to be refreshed if it expires before this moment: the moment of the call, and `R`'s seconds.
    pub before: u32,
    /// Whether the expiry that `T` gives is looked at, as it is if `T` stands before `R` in the line. If not, it is the one that
    /// the item had.
    pub is_after_touch: bool,
}

/// `mg`: the live item of a key as it was, with what is told of it. Its data lie in the buffer.
///
/// It replies `Found` with the marks. One client wins and is told W: the first that asks for a stale item, or with `recache`
/// for one that expires before the moment that is asked for, or one whose miss stored the empty item of `vivify`. The others
/// are told Z, until the item is stored anew or marked as stale. At a miss it replies `NotFound`, or stores the empty item and
/// replies `Found`, with no item given.
///
/// `touch` gives an item that is hit another expiry; its cas unique stays. A store that is refused removes the key, as that of
/// `set` does.
pub fn meta_get<'a, D: PageDevice<PAGE>, const PAGE: usize>(
    lane: &mut ServiceLane<D, PAGE>,
    alloc: Global,
    key: &[u8],
    request: MetaGet,
    turn: CommandTurn,
    found: &'a mut ValueBuffer,
) -> ItemReply<'a>
    requires { IsKey key.now }
    ensures does { DoesAndGives PAGE D.honest D.failures D.held key.now turn (meta_get_plan request)
        lane.old result.item result.reply lane.new }
    ensures within { IfSome result.item (λ item. IsValue item.bytes.now) }
{
    let seen = look(lane, key, turn, found);
    let item = live_item(seen, found.bytes(), turn.flushed);
    let reply = follow(lane, alloc, key, turn.word, request.verdict(item));
    ItemReply { item, reply }
}

impl MetaGet {
    // What a meta get does about the live item.
    fn verdict(self, live: Option<CacheItem<'_>>) -> CommandVerdict<'_>
        ensures { plan_shown result ≡ meta_get_plan self (option_map kept_shown live.entry) }
    {
        match live {
            None => vivify_verdict(self.vivify),
            Some(item) => self.hit_verdict(item),
        }
    }

    // What it does about an item.
    fn hit_verdict(self, item: CacheItem<'_>) -> CommandVerdict<'_>
        ensures { plan_shown result ≡ meta_get_plan self (Some (kept_shown item.entry)) }
    {
        let reply = CommandReply::Found(self.told(&item.head));
        if !self.touch.gives_expiry() && !self.wins(&item.head) {
            return CommandVerdict::Keep(reply);
        }
        let asked = CacheItem {
            head: self.asked(&item.head),
            bytes: item.bytes,
        };
        CommandVerdict::Store(ItemParts::of(asked), reply)
    }

    // Whether the client is to refresh an item: it is stale or due, and no client was told so before.
    fn wins(self, head: &Head) -> bool
        ensures { result ≡ wins self head.now }
    {
        !head.is_won && (head.is_stale || self.is_due(head))
    }

    // Whether an item expires before the moment that is asked for.
    fn is_due(self, head: &Head) -> bool
        ensures { result ≡ is_due self.recache self.touch head.now }
    {
        match self.recache {
            Some(recache) => recache.is_before(self.touch, head),
            None => false,
        }
    }

    // What is told of an item.
    fn told(self, head: &Head) -> ItemMarks
        ensures { result ≡ told self head.now }
    {
        ItemMarks {
            is_awaited: head.is_won,
            is_stale: head.is_stale,
            has_won: self.wins(head),
        }
    }

    // The head of an item that was asked for.
    fn asked(self, head: &Head) -> Head
        ensures { result ≡ asked self head.now }
    {
        Head {
            flags: head.flags,
            cas: head.cas,
            expires: self.touch.after(head.expires),
            is_stale: head.is_stale,
            is_won: head.is_won || self.wins(head),
        }
    }
}

impl Recache {
    // Whether an item expires before the moment.
    fn is_before(self, touch: ExpiryChange, head: &Head) -> bool
        ensures { result ≡ ends_before self.before (expiry_seen self touch head.now) }
    {
        match self.expiry(touch, head) {
            Some(moment) => moment < self.before,
            None => false,
        }
    }

    // The expiry that is looked at.
    fn expiry(self, touch: ExpiryChange, head: &Head) -> Option<u32>
        ensures { result ≡ expiry_seen self touch head.now }
    {
        if self.is_after_touch {
            touch.after(head.expires)
        } else {
            head.expires
        }
    }
}

// What a miss does.
fn vivify_verdict<'a>(vivify: Option<Vivify>) -> CommandVerdict<'a>
    ensures { plan_shown result ≡ vivify_plan vivify }
{
    let Some(vivify) = vivify else {
        return CommandVerdict::Keep(CommandReply::NotFound);
    };
    let just_won = ItemMarks {
        is_awaited: false,
        is_stale: false,
        has_won: true,
    };
    CommandVerdict::Store(vivify.parts(), CommandReply::Found(just_won))
}

impl Vivify {
    // The empty item, won by the client that missed.
    fn parts<'a>(self) -> ItemParts<'a>
        ensures { parts_shown result ≡ vivified self }
    {
        let head = Head {
            flags: 0,
            cas: self.cas,
            expires: self.expires,
            is_stale: false,
            is_won: true,
        };
        ItemParts {
            head,
            front: &[],
            back: &[],
        }
    }
}
