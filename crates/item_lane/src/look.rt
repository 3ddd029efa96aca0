// Gets of items.
ghost use Rattle.std.specs.Prelude.{◌≡◌, ◌≤◌, length, IfSome};
ghost use Rattle.std.specs.Option.{option_map};
ghost use Rattle.record_pages.specs.Bounded.{IsKey, IsValue};
ghost use Rattle.mover.specs.Get.{answer_of};
ghost use Rattle.service_lane.specs.Serving.{Gets};
ghost use Rattle.item_lane.specs.Cells.{kept_shown};
ghost use Rattle.item_lane.specs.Live.{LooksUp, live_in};

use crate::cache_item::CacheItem;
use crate::command_turn::CommandTurn;
use mover::AnswerKind;
use page_device::PageDevice;
use record_pages::ValueBuffer;
use service_lane::ServiceLane;

/// The live item of a key, if it has one. Its data lie in the buffer, and have at most 2,048 bytes. No memory is taken.
///
/// A miss by a fault of the device, or by a damaged page, is none: a cache may forget.
pub fn get<'a, D: PageDevice<PAGE>, const PAGE: usize>(
    lane: &mut ServiceLane<D, PAGE>,
    key: &[u8],
    turn: CommandTurn,
    found: &'a mut ValueBuffer,
) -> Option<CacheItem<'a>>
    requires { IsKey key.now }
    ensures looks { LooksUp PAGE D.honest D.failures D.held key.now turn lane.old result lane.new }
    ensures within { IfSome result (λ item. IsValue item.bytes.now) }
{
    let seen = look(lane, key, turn, found);
    live_item(seen, found.bytes(), turn.flushed)
}

/// Asks a lane for a key. The value of a hit is in the buffer then.
pub(crate) fn look<D: PageDevice<PAGE>, const PAGE: usize>(
    lane: &mut ServiceLane<D, PAGE>,
    key: &[u8],
    turn: CommandTurn,
    found: &mut ValueBuffer,
) -> AnswerKind
    requires { IsKey key.now }
    ensures { Gets PAGE D.honest D.failures D.held key.now turn.moment (answer_of result found.new)
        lane.old lane.new }
{
    match lane.get(key, turn.moment, found) {
        Ok(seen) => seen,
        Err(_) => unreachable!(),
    }
}

/// The live item of a key of which a lane answered this, its value in the buffer.
pub(crate) fn live_item(seen: AnswerKind, found: &[u8], flushed: u64) -> Option<CacheItem<'_>>
    ensures live { option_map kept_shown result ≡ live_in flushed (answer_of seen found.now) }
    ensures within { IfSome result (λ item. length item.bytes.now ≤ length found.now) }
{
    match seen {
        AnswerKind::Hit { .. } => {
            let item = CacheItem::decode(found)?;
            if item.head.cas < flushed {
                return None;
            }
            Some(item)
        }
        AnswerKind::Miss(_) => None,
    }
}
