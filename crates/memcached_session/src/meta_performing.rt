// What a meta command asks of the lane of its key is done.
ghost use Rattle.std.specs.Prelude.{◌≡◌, ◌==◌, false};
ghost use Rattle.std.specs.Option.{option_map};
ghost use Rattle.record_pages.specs.Bounded.{IsKey};
ghost use Rattle.item_lane.specs.Cells.{kept_shown};
ghost use Rattle.memcached_text.specs.Asked.{meta_shown};
ghost use Rattle.memcached_text.specs.Limits.{AreFlags};
ghost use Rattle.memcached_session.specs.Counting.{number_of_outcome};
ghost use Rattle.memcached_session.specs.Fitting.{IsLaneAnswer};
ghost use Rattle.memcached_session.specs.Saying.{said_shown};
ghost use Rattle.memcached_session.specs.Framing.{frame_of};
ghost use Rattle.memcached_session.specs.MetaDoing.{SaysGet, SaysSet, SaysDelete, SaysDelta, outcome_of_item};

use crate::answered::Answered;
use crate::lane_turn::LaneTurn;
use crate::meta_reading::{meta_delete_in, meta_delta_in, meta_get_in, meta_item, meta_set_in};
use crate::meta_replying::{to_delete, to_delta, to_get, to_set};
use crate::outcome::SessionOutcome;
use crate::replying::outcome;
use item_lane::{CacheItem, CommandReply, meta_arithmetic, meta_delete, meta_get, meta_set};
use itoa::Buffer;
use memcached_text::MetaRequest;
use page_device::PageDevice;
use record_pages::{PutFault, ValueBuffer};
use service_lane::ServiceLane;
use std::alloc::Global;

/// `mg`.
pub(crate) fn perform_get<'a, D: PageDevice<PAGE>, const PAGE: usize>(
    lane: &mut ServiceLane<D, PAGE>,
    alloc: Global,
    request: MetaRequest<'a>,
    turn: LaneTurn,
    found: &'a mut ValueBuffer,
) -> Answered<'a>
    requires key { IsKey request.key.now }
    requires flags { AreFlags request.flags.now }
    ensures does { SaysGet (frame_of PAGE D.honest D.failures D.held turn.command turn.cas) (meta_shown request.entry)
        lane.old (said_shown result) lane.new }
    ensures fits { IsLaneAnswer (said_shown result) }
{
    let asked = meta_get_in(&request, turn.command.moment, turn.cas);
    let done = meta_get(lane, alloc, request.key, asked, turn.command, found);
    let outcome = outcome_of_item(done.item, done.reply);
    to_get(&request, asked, turn.command.moment, done).answered(&request, outcome)
}

/// `ms`, with its data block.
pub(crate) fn perform_set<'a, D: PageDevice<PAGE>, const PAGE: usize>(
    lane: &mut ServiceLane<D, PAGE>,
    alloc: Global,
    request: MetaRequest<'a>,
    block: &[u8],
    turn: LaneTurn,
    found: &mut ValueBuffer,
) -> Answered<'a>
    requires key { IsKey request.key.now }
    requires flags { AreFlags request.flags.now }
    ensures does { SaysSet (frame_of PAGE D.honest D.failures D.held turn.command turn.cas) (meta_shown request.entry) block.now
        lane.old (said_shown result) lane.new }
    ensures fits { IsLaneAnswer (said_shown result) }
{
    let asked = meta_set_in(&request);
    let item = meta_item(&request, block, turn.command.moment, turn.cas);
    let reply = meta_set(lane, alloc, request.key, asked, item, turn.command, found);
    to_set(&request, turn.cas, reply).answered(&request, outcome(reply))
}

/// `md`.
pub(crate) fn perform_delete<'a, D: PageDevice<PAGE>, const PAGE: usize>(
    lane: &mut ServiceLane<D, PAGE>,
    alloc: Global,
    request: MetaRequest<'a>,
    turn: LaneTurn,
    found: &mut ValueBuffer,
) -> Answered<'a>
    requires key { IsKey request.key.now }
    requires flags { AreFlags request.flags.now }
    ensures does { SaysDelete (frame_of PAGE D.honest D.failures D.held turn.command turn.cas) (meta_shown request.entry)
        lane.old (said_shown result) lane.new }
    ensures fits { IsLaneAnswer (said_shown result) }
{
    let asked = meta_delete_in(&request, turn.command.moment, turn.cas);
    let reply = meta_delete(lane, alloc, request.key, asked, turn.command, found);
    to_delete(&request, reply).answered(&request, outcome(reply))
}

/// `ma`; the digits of its number are lent.
pub(crate) fn perform_delta<'a, D: PageDevice<PAGE>, const PAGE: usize>(
    lane: &mut ServiceLane<D, PAGE>,
    alloc: Global,
    request: MetaRequest<'a>,
    turn: LaneTurn,
    found: &mut ValueBuffer,
    digits: &'a mut Buffer,
) -> Answered<'a>
    requires key { IsKey request.key.now }
    requires flags { AreFlags request.flags.now }
    ensures does { SaysDelta (frame_of PAGE D.honest D.failures D.held turn.command turn.cas) (meta_shown request.entry)
        lane.old (said_shown result) lane.new }
    ensures fits { IsLaneAnswer (said_shown result) }
{
    let asked = meta_delta_in(&request, turn.command.moment, turn.cas);
    let done = meta_arithmetic(lane, alloc, request.key, asked, turn.command, found);
    let outcome = outcome_of_item(done.item, done.reply);
    to_delta(&request, asked, turn.command.moment, done, digits).answered(&request, outcome)
}

// How a command went that saw this item: it missed if there was none.
fn outcome_of_item(
    item: Option<CacheItem<'_>>,
    reply: Result<CommandReply, PutFault>,
) -> SessionOutcome
    ensures value { result ≡ outcome_of_item (option_map kept_shown item.entry) reply }
    ensures kept { (number_of_outcome result == 13) ≡ false }
{
    if item.is_none() && reply.is_ok() {
        return SessionOutcome::Miss;
    }
    outcome(reply)
}
