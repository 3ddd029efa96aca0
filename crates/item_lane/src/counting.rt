// Numbers that count.
ghost use Rattle.std.specs.Prelude.{◌≡◌, ◌≤◌, length, replicate, IfSome};
ghost use Rattle.std.specs.Option.{option_map};
ghost use Rattle.record_pages.specs.Bounded.{IsKey};
ghost use Rattle.item_lane.specs.Cells.{kept_shown};
ghost use Rattle.item_lane.specs.Plans.{plan_shown};
ghost use Rattle.item_lane.specs.Choosing.{delta_plan};
ghost use Rattle.item_lane.specs.Doing.{Does};

use crate::cache_item::CacheItem;
use crate::change::{Change, number_in};
use crate::command_reply::CommandReply;
use crate::command_turn::CommandTurn;
use crate::command_verdict::{CommandVerdict, ItemParts};
use crate::condition::agrees;
use crate::follow::follow;
use crate::look::{live_item, look};
use itoa::Buffer;
use page_device::PageDevice;
use record_pages::{PutFault, Value, ValueBuffer};
use service_lane::ServiceLane;
use std::alloc::Global;

/// A change of the number that an item holds.
#[derive(Clone, Copy)]
pub struct Delta {
    /// What the number becomes.
    pub change: Change,
    /// The cas unique that the item gets.
    pub cas: u64,
    /// The cas unique that the live item must have, if one is asked for.
    pub compare: Option<u64>,
}

/// `incr` and `decr`: changes the number that the live item of a key holds. It holds one if its data are one to twenty decimal
/// digits of a number below 2^64, and after them only spaces. The new number is written in decimal, with spaces after it up to
/// the length that the data had. The item keeps its flags, its expiry and its marks.
///
/// It replies `Number` with the new number, `NotNumber`, `NotFound`, or `Exists` if the item has another cas unique than the
/// one that is asked for. A store that is refused removes the key, as `set` does.
pub fn change_number<D: PageDevice<PAGE>, const PAGE: usize>(
    lane: &mut ServiceLane<D, PAGE>,
    alloc: Global,
    key: &[u8],
    delta: Delta,
    turn: CommandTurn,
    found: &mut ValueBuffer,
) -> Result<CommandReply, PutFault>
    requires { IsKey key.now }
    ensures { Does PAGE D.honest D.failures D.held key.now turn (delta_plan delta)
        lane.old result lane.new }
{
    let seen = look(lane, key, turn, found);
    let live = live_item(seen, found.bytes(), turn.flushed);
    let mut digits = Buffer::new();
    let spaces = [b' '; Value::MAX_LEN];
    let verdict = delta.verdict(live, &mut digits, &spaces);
    follow(lane, alloc, key, turn.word, verdict)
}

impl Delta {
    // What a change does about the live item.
    pub(crate) fn verdict<'a>(
        self,
        live: Option<CacheItem<'a>>,
        digits: &'a mut Buffer,
        spaces: &'a [u8],
    ) -> CommandVerdict<'a>
        requires short { IfSome live (λ item. length item.bytes.now ≤ 2048) }
        requires spaces { spaces.now ≡ replicate 2048 32 }
        ensures { plan_shown result ≡ delta_plan self (option_map kept_shown live.entry) }
    {
        let Some(item) = live else {
            return CommandVerdict::Keep(CommandReply::NotFound);
        };
        if !agrees(self.compare, &item.head) {
            return CommandVerdict::Keep(CommandReply::Exists);
        }
        let Some(old) = number_in(item.bytes) else {
            return CommandVerdict::Keep(CommandReply::NotNumber);
        };
        let number = self.change.of(old);
        let text = digits.format(number).as_bytes();
        let parts = ItemParts {
            head: item.head.counted(self.cas),
            front: text,
            back: &spaces[..item.bytes.len().saturating_sub(text.len())],
        };
        CommandVerdict::Store(parts, CommandReply::Number(number))
    }
}
