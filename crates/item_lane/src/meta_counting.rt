// Meta arithmetic.
ghost use Rattle.std.specs.Prelude.{◌≡◌, ◌≤◌, length, replicate, IfSome};
ghost use Rattle.std.specs.Option.{option_map};
ghost use Rattle.record_pages.specs.Bounded.{IsKey};
ghost use Rattle.item_lane.specs.Cells.{kept_shown};
ghost use Rattle.item_lane.specs.Plans.{plan_shown, parts_shown};
ghost use Rattle.item_lane.specs.Meta.{delta_of, initial_item, initial_plan, meta_delta_plan};
ghost use Rattle.item_lane.specs.Doing.{DoesAndGives};

use crate::cache_item::CacheItem;
use crate::change::Change;
use crate::command_reply::CommandReply;
use crate::command_turn::CommandTurn;
use crate::command_verdict::{CommandVerdict, ItemParts};
use crate::counting::Delta;
use crate::expiry_change::ExpiryChange;
use crate::follow::follow;
use crate::head::Head;
use crate::item_reply::ItemReply;
use crate::look::{live_item, look};
use crate::meta_storing::unless_zero;
use itoa::Buffer;
use page_device::PageDevice;
use record_pages::{Value, ValueBuffer};
use service_lane::ServiceLane;
use std::alloc::Global;

/// A change of the number that an item holds, and what a miss stores.
#[derive(Clone, Copy)]
pub struct MetaDelta {
    /// `M` and `D`: what the number becomes.
    pub change: Change,
    /// The cas unique that the item gets.
    pub cas: u64,
    /// `C`: the cas unique that the live item must have, if one is asked for; 0 asks for none.
    pub compare: Option<u64>,
    /// `T`: what becomes of the expiry of an item whose number is changed.
    pub touch: ExpiryChange,
    /// `N`: what a miss stores, if it stores something.
    pub initial: Option<InitialNumber>,
}

/// The number that a miss stores.
#[derive(Clone, Copy)]
pub struct InitialNumber {
    /// `J`: the number.
    pub number: u64,
    /// When it expires. In memcached that is what the later of `N` and `T` in the line says.
    pub expires: Option<u32>,
}

/// `ma`: changes the number that the live item of a key holds, as `incr` and `decr` do, and gives the item as it was. Its data
/// lie in the buffer.
///
/// It replies `Number` with the new number, `NotNumber`, `Exists` if the item has another cas unique than the one that is asked
/// for, or `NotFound`. A miss with `initial` stores that number, unchanged, and replies `Number` with it; no item is given. A
/// store that is refused removes the key, as that of `set` does.
pub fn meta_arithmetic<'a, D: PageDevice<PAGE>, const PAGE: usize>(
    lane: &mut ServiceLane<D, PAGE>,
    alloc: Global,
    key: &[u8],
    request: MetaDelta,
    turn: CommandTurn,
    found: &'a mut ValueBuffer,
) -> ItemReply<'a>
    requires { IsKey key.now }
    ensures { DoesAndGives PAGE D.honest D.failures D.held key.now turn (meta_delta_plan request)
        lane.old result.item result.reply lane.new }
{
    let seen = look(lane, key, turn, found);
    let item = live_item(seen, found.bytes(), turn.flushed);
    let mut digits = Buffer::new();
    let spaces = [b' '; Value::MAX_LEN];
    let verdict = request.verdict(item, &mut digits, &spaces);
    let reply = follow(lane, alloc, key, turn.word, verdict);
    ItemReply { item, reply }
}

impl MetaDelta {
    // What a change does about the live item.
    fn verdict<'a>(
        self,
        live: Option<CacheItem<'a>>,
        digits: &'a mut Buffer,
        spaces: &'a [u8],
    ) -> CommandVerdict<'a>
        requires short { IfSome live (λ item. length item.bytes.now ≤ 2048) }
        requires spaces { spaces.now ≡ replicate 2048 32 }
        ensures { plan_shown result ≡ meta_delta_plan self (option_map kept_shown live.entry) }
    {
        let Some(item) = live else {
            return initial_verdict(self.cas, self.initial, digits);
        };
        self.delta()
            .verdict(Some(self.touch.on(item)), digits, spaces)
    }

    // The change of the number.
    fn delta(self) -> Delta
        ensures { result ≡ delta_of self }
    {
        Delta {
            change: self.change,
            cas: self.cas,
            compare: unless_zero(self.compare),
        }
    }
}

// What a miss does.
fn initial_verdict<'a>(
    cas: u64,
    initial: Option<InitialNumber>,
    digits: &'a mut Buffer,
) -> CommandVerdict<'a>
    ensures { plan_shown result ≡ initial_plan cas initial }
{
    match initial {
        None => CommandVerdict::Keep(CommandReply::NotFound),
        Some(initial) => {
            let parts = initial.parts(cas, digits);
            CommandVerdict::Store(parts, CommandReply::Number(initial.number))
        }
    }
}

impl InitialNumber {
    // The item that holds the number.
    fn parts<'a>(self, cas: u64, digits: &'a mut Buffer) -> ItemParts<'a>
        ensures { parts_shown result ≡ initial_item cas self }
    {
        let head = Head {
            flags: 0,
            cas,
            expires: self.expires,
            is_stale: false,
            is_won: false,
        };
        ItemParts {
            head,
            front: digits.format(self.number).as_bytes(),
            back: &[],
        }
    }
}
