// Removals of items.
ghost use Rattle.std.specs.Prelude.{◌≡◌, Ok};
ghost use Rattle.record_pages.specs.Bounded.{IsKey};
ghost use Rattle.item_lane.specs.Choosing.{delete_plan};
ghost use Rattle.item_lane.specs.Doing.{Does};

use crate::command_reply::CommandReply;
use crate::command_turn::CommandTurn;
use crate::condition::agrees;
use crate::follow::remove;
use crate::look::{live_item, look};
use page_device::PageDevice;
use record_pages::ValueBuffer;
use service_lane::ServiceLane;

/// `delete`: removes the item of a key, if it has the number that is asked for, if one is. No later get hits it. No memory is
/// taken.
///
/// It replies `Deleted`, `Exists` if the live item has another number, which changes nothing, or `NotFound`. The key is removed
/// at `NotFound` too: a fault of the device may have hidden an item.
pub fn delete<D: PageDevice<PAGE>, const PAGE: usize>(
    lane: &mut ServiceLane<D, PAGE>,
    key: &[u8],
    compare: Option<u64>,
    turn: CommandTurn,
    found: &mut ValueBuffer,
) -> CommandReply
    requires { IsKey key.now }
    ensures { Does PAGE D.honest D.failures D.held key.now turn (delete_plan compare)
        lane.old (Ok result) lane.new }
{
    let seen = look(lane, key, turn, found);
    match live_item(seen, found.bytes(), turn.flushed) {
        None => {
            remove(lane, key);
            CommandReply::NotFound
        }
        Some(item) if agrees(compare, &item.head) => {
            remove(lane, key);
            CommandReply::Deleted
        }
        Some(_) => CommandReply::Exists,
    }
}
