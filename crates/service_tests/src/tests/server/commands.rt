//! Steps that are commands of a lane of items.
ghost use Rattle.record_pages.specs.Bounded.{IsKey};

use super::meta::meta_command;
use super::scripted::Lane;
use super::words::{data_of, expiry_of, head_of, number_or, tell_item, tell_reply};
use item_lane::{
    CacheItem, Change, CommandTurn, Condition, Delta, StoreMode, change_number, delete, get,
    get_and_touch, set, store_if, touch,
};
use record_pages::{Key, ValueBuffer};
use std::alloc::Global;
use test_devices::{TextStep, is};

/// Makes the command of a step, and tells what it gives.
pub fn command(
    lane: &mut Lane,
    alloc: Global,
    turn: CommandTurn,
    word: &[u8],
    step: &mut TextStep<'_>,
) {
    let key = step.word();
    if key.is_empty() || key.len() > Key::MAX_LEN {
        step.refuse();
        return;
    }
    let mut found = ValueBuffer::empty();
    match mode_of(word) {
        Some(mode) => store(lane, alloc, key, mode, turn, &mut found, step),
        None => other(lane, alloc, key, word, turn, &mut found, step),
    }
}

// How a store of a step depends on what is there.
fn mode_of(word: &[u8]) -> Option<StoreMode> {
    if is(word, b"add") {
        Some(StoreMode::Add)
    } else if is(word, b"replace") {
        Some(StoreMode::Replace)
    } else if is(word, b"append") {
        Some(StoreMode::Append)
    } else if is(word, b"prepend") {
        Some(StoreMode::Prepend)
    } else {
        None
    }
}

// Stores an item that depends on what is there.
fn store(
    lane: &mut Lane,
    alloc: Global,
    key: &[u8],
    mode: StoreMode,
    turn: CommandTurn,
    found: &mut ValueBuffer,
    step: &mut TextStep<'_>,
)
    requires { IsKey key.now }
{
    let compare = number_or(step, b"any");
    let head = head_of(step);
    let data = data_of(step);
    let item = CacheItem {
        head,
        bytes: data.as_slice(),
    };
    let condition = Condition { mode, compare };
    tell_reply(
        store_if(lane, alloc, key, condition, item, turn, found),
        step,
    );
}

// Another command than such a store.
fn other(
    lane: &mut Lane,
    alloc: Global,
    key: &[u8],
    word: &[u8],
    turn: CommandTurn,
    found: &mut ValueBuffer,
    step: &mut TextStep<'_>,
)
    requires { IsKey key.now }
{
    if is(word, b"get") {
        tell_item(get(lane, key, turn, found), step);
    } else if is(word, b"set") {
        put(lane, alloc, key, turn, step);
    } else if is(word, b"delete") {
        let compare = number_or(step, b"any");
        tell_reply(Ok(delete(lane, key, compare, turn, found)), step);
    } else if is(word, b"touch") {
        let expires = expiry_of(step);
        tell_reply(touch(lane, alloc, key, expires, turn, found), step);
    } else if is(word, b"get-and-touch") {
        let touched = get_and_touch(lane, alloc, key, expiry_of(step), turn, found);
        tell_item(touched.item, step);
        tell_reply(touched.reply, step);
    } else if is(word, b"up") {
        let change = Change::Increment(step.number());
        count(lane, alloc, key, change, turn, found, step);
    } else if is(word, b"down") {
        let change = Change::Decrement(step.number());
        count(lane, alloc, key, change, turn, found, step);
    } else {
        meta_command(lane, alloc, key, word, turn, found, step);
    }
}

// Stores an item, whatever is there.
fn put(lane: &mut Lane, alloc: Global, key: &[u8], turn: CommandTurn, step: &mut TextStep<'_>)
    requires { IsKey key.now }
{
    let head = head_of(step);
    let data = data_of(step);
    let item = CacheItem {
        head,
        bytes: data.as_slice(),
    };
    tell_reply(set(lane, alloc, key, item, turn), step);
}

// Changes a number, whose item gets the cas unique of the step.
fn count(
    lane: &mut Lane,
    alloc: Global,
    key: &[u8],
    change: Change,
    turn: CommandTurn,
    found: &mut ValueBuffer,
    step: &mut TextStep<'_>,
)
    requires { IsKey key.now }
{
    let delta = Delta {
        change,
        cas: step.number(),
        compare: None,
    };
    tell_reply(change_number(lane, alloc, key, delta, turn, found), step);
}
