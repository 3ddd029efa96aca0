// What is asked of the lane of a key is done.
ghost use Rattle.std.specs.Prelude.{◌≡◌, ℕ};
ghost use Rattle.record_pages.specs.Bounded.{IsKey};
ghost use Rattle.item_lane.specs.Choosing.{delta_plan};
ghost use Rattle.item_lane.specs.Doing.{Does};
ghost use Rattle.memcached_text.specs.Asked.{storing_shown, delta_shown};
ghost use Rattle.item_lane.specs.Cells.{kept_shown};
ghost use Rattle.memcached_session.specs.Keyed.{keyed_shown, key_in};
ghost use Rattle.memcached_session.specs.Saying.{said_shown};
ghost use Rattle.memcached_session.specs.Fitting.{AsksFlags, IsLaneAnswer};
ghost use Rattle.memcached_session.specs.Framing.{frame_of};
ghost use Rattle.memcached_session.specs.Doing.{kept_of, condition_of, change_of, delta_of, DoesKeyed, StoresBy, FindsAndTouches, Touches, RemovesLarge};

use crate::answered::Answered;
use crate::expiring::expires_at;
use crate::keyed::Keyed;
use crate::lane_turn::LaneTurn;
use crate::meta_performing::{perform_delete, perform_delta, perform_get, perform_set};
use crate::outcome::SessionOutcome;
use crate::replying::{to_item, to_reply};
use item_lane::{
    CacheItem, Change, CommandReply, CommandTurn, Condition, Delta, Head, StoreMode, change_number,
    delete, get, get_and_touch, set, store_if, touch,
};
use itoa::Buffer;
use memcached_text::{
    DeltaRequest, Direction, Exptime, FixedReply, StoreCommand, StoreRequest, TextAnswer,
};
use page_device::PageDevice;
use record_pages::{PutFault, ValueBuffer};
use service_lane::ServiceLane;
use std::alloc::Global;

/// Does what is asked of the lane of a key, by one call of it. The item that a command stores gets the cas unique. The digits of a
/// number that is answered are lent.
pub(crate) fn perform<'a, D: PageDevice<PAGE>, const PAGE: usize>(
    lane: &mut ServiceLane<D, PAGE>,
    alloc: Global,
    keyed: Keyed<'a>,
    turn: LaneTurn,
    found: &'a mut ValueBuffer,
    digits: &'a mut Buffer,
) -> Answered<'a>
    requires key { IsKey (key_in (keyed_shown keyed)) }
    requires flags { AsksFlags (keyed_shown keyed) }
    ensures does { DoesKeyed (frame_of PAGE D.honest D.failures D.held turn.command turn.cas) (keyed_shown keyed.entry)
        lane.old (said_shown result) lane.new }
    ensures fits { IsLaneAnswer (said_shown result) }
{
    match keyed {
        Keyed::Get { key, with_cas } => to_item(key, with_cas, get(lane, key, turn.command, found)),
        Keyed::GetAndTouch {
            key,
            exptime,
            with_cas,
        } => find_and_touch(lane, alloc, key, exptime, with_cas, turn.command, found),
        Keyed::Store { request, block } => to_reply(
            request.noreply,
            store(lane, alloc, request, block, turn, found),
        ),
        Keyed::TooLarge { key, noreply } => remove_large(lane, key, noreply),
        Keyed::Delete { key, noreply } => {
            to_reply(noreply, Ok(delete(lane, key, None, turn.command, found)))
        }
        Keyed::Delta(delta) => to_reply(delta.noreply, count(lane, alloc, delta, turn, found)),
        Keyed::Touch {
            key,
            exptime,
            noreply,
        } => to_reply(
            noreply,
            touch_key(lane, alloc, key, exptime, turn.command, found),
        ),
        Keyed::MetaGet(request) => perform_get(lane, alloc, request, turn, found),
        Keyed::MetaSet { request, block } => {
            perform_set(lane, alloc, request, block, turn, found)
        }
        Keyed::MetaDelete(request) => perform_delete(lane, alloc, request, turn, found),
        Keyed::MetaDelta(request) => { perform_delta(lane, alloc, request, turn, found, digits) }
    }
}

// Finds a key's live item, and gives it another expiry.
fn find_and_touch<'a, D: PageDevice<PAGE>, const PAGE: usize>(
    lane: &mut ServiceLane<D, PAGE>,
    alloc: Global,
    key: &'a [u8],
    exptime: Exptime,
    with_cas: bool,
    turn: CommandTurn,
    found: &'a mut ValueBuffer,
) -> Answered<'a>
    requires { IsKey key.now }
    ensures does { (cas : ℕ) → FindsAndTouches (frame_of PAGE D.honest D.failures D.held turn cas) key.now exptime with_cas
        lane.old (said_shown result) lane.new }
    ensures fits { IsLaneAnswer (said_shown result) }
{
    let expires = expires_at(exptime, turn.moment);
    let touched = get_and_touch(lane, alloc, key, expires, turn, found);
    to_item(key, with_cas, touched.item)
}

// Stores a data block by a command.
fn store<D: PageDevice<PAGE>, const PAGE: usize>(
    lane: &mut ServiceLane<D, PAGE>,
    alloc: Global,
    request: StoreRequest<'_>,
    block: &[u8],
    turn: LaneTurn,
    found: &mut ValueBuffer,
) -> Result<CommandReply, PutFault>
    requires { IsKey request.key.now }
    ensures { StoresBy (frame_of PAGE D.honest D.failures D.held turn.command turn.cas) request.entry.key.now
        (kept_of turn.command.moment turn.cas (storing_shown request.entry) block.now)
        (condition_of request.entry.mode request.entry.cas) lane.old result lane.new }
{
    let item = item_of(request, block, turn.command.moment, turn.cas);
    match condition_of(request.mode, request.cas) {
        None => set(lane, alloc, request.key, item, turn.command),
        Some(condition) => store_if(
            lane,
            alloc,
            request.key,
            condition,
            item,
            turn.command,
            found,
        ),
    }
}

// The item that a data block is to be.
fn item_of<'a>(request: StoreRequest<'_>, block: &'a [u8], moment: u64, cas: u64) -> CacheItem<'a>
    ensures { kept_shown result ≡ kept_of moment cas (storing_shown request.entry) block.now }
{
    let head = Head {
        flags: request.flags,
        cas,
        expires: expires_at(request.exptime, moment),
        is_stale: false,
        is_won: false,
    };
    CacheItem { head, bytes: block }
}

// How a store depends on the live item, if it does.
fn condition_of(command: StoreCommand, cas: u64) -> Option<Condition>
    ensures { result ≡ condition_of command cas }
{
    let (mode, compare) = match command {
        StoreCommand::Set => return None,
        StoreCommand::Add => (StoreMode::Add, None),
        StoreCommand::Replace => (StoreMode::Replace, None),
        StoreCommand::Append => (StoreMode::Append, None),
        StoreCommand::Prepend => (StoreMode::Prepend, None),
        StoreCommand::Cas => (StoreMode::Replace, Some(cas)),
    };
    Some(Condition { mode, compare })
}

// Changes the number of a key's live item, which gets the cas unique.
fn count<D: PageDevice<PAGE>, const PAGE: usize>(
    lane: &mut ServiceLane<D, PAGE>,
    alloc: Global,
    request: DeltaRequest<'_>,
    turn: LaneTurn,
    found: &mut ValueBuffer,
) -> Result<CommandReply, PutFault>
    requires { IsKey request.key.now }
    ensures { Does PAGE D.honest D.failures D.held request.entry.key.now turn.command
        (delta_plan (delta_of turn.cas (delta_shown request.entry))) lane.old result lane.new }
{
    let delta = delta_of(request, turn.cas);
    change_number(lane, alloc, request.key, delta, turn.command, found)
}

// Gives a key's live item another expiry.
fn touch_key<D: PageDevice<PAGE>, const PAGE: usize>(
    lane: &mut ServiceLane<D, PAGE>,
    alloc: Global,
    key: &[u8],
    exptime: Exptime,
    turn: CommandTurn,
    found: &mut ValueBuffer,
) -> Result<CommandReply, PutFault>
    requires { IsKey key.now }
    ensures { Touches PAGE D.honest D.failures D.held key.now turn exptime
        lane.old result lane.new }
{
    let expires = expires_at(exptime, turn.moment);
    touch(lane, alloc, key, expires, turn, found)
}

// How a number is to change. The item gets the cas unique.
fn delta_of(request: DeltaRequest<'_>, cas: u64) -> Delta
    ensures { result ≡ delta_of cas (delta_shown request.entry) }
{
    let change = match request.direction {
        Direction::Up => Change::Increment(request.amount),
        Direction::Down => Change::Decrement(request.amount),
    };
    Delta {
        change,
        cas,
        compare: None,
    }
}

// Removes a key whose new value is too large.
fn remove_large<'a, D: PageDevice<PAGE>, const PAGE: usize>(
    lane: &mut ServiceLane<D, PAGE>,
    key: &[u8],
    noreply: bool,
) -> Answered<'a>
    requires { IsKey key.now }
    ensures does { RemovesLarge D.held key.now noreply lane.old (said_shown result) lane.new }
    ensures fits { IsLaneAnswer (said_shown result) }
{
    match lane.remove(key) {
        Ok(()) => {}
        Err(_) => unreachable!(),
    }
    Answered::unless_quiet(
        noreply,
        TextAnswer::Reply(FixedReply::TooLarge),
        SessionOutcome::TooLarge,
    )
}
