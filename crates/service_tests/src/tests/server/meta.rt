//! Steps that are meta commands of a lane of items.
ghost use Rattle.record_pages.specs.Bounded.{IsKey};

use super::scripted::Lane;
use super::words::{data_of, expiry_of, head_of, number_or, tell_item, tell_reply};
use item_lane::{
    CacheItem, Change, CommandTurn, ExpiryChange, InitialNumber, Invalidation, MetaDelete,
    MetaDelta, MetaGet, MetaMode, MetaSet, Recache, Vivify, meta_arithmetic, meta_delete, meta_get,
    meta_set,
};
use record_pages::ValueBuffer;
use std::alloc::Global;
use test_devices::{TextStep, is};

/// Makes the meta command of a step, and tells what it gives.
pub fn meta_command(
    lane: &mut Lane,
    alloc: Global,
    key: &[u8],
    word: &[u8],
    turn: CommandTurn,
    found: &mut ValueBuffer,
    step: &mut TextStep<'_>,
)
    requires { IsKey key.now }
{
    if is(word, b"ms") || is(word, b"ms-I") {
        meta_store(lane, alloc, key, is(word, b"ms-I"), turn, found, step);
    } else if is(word, b"md") || is(word, b"md-I") {
        let request = MetaDelete {
            compare: number_or(step, b"any"),
            invalidation: invalidation_of(is(word, b"md-I"), step),
        };
        tell_reply(meta_delete(lane, alloc, key, request, turn, found), step);
    } else if is(word, b"ma-up") || is(word, b"ma-down") {
        let request = meta_delta_of(is(word, b"ma-up"), step);
        let changed = meta_arithmetic(lane, alloc, key, request, turn, found);
        tell_reply(changed.reply, step);
    } else {
        let request = meta_get_of(word, step);
        let got = meta_get(lane, alloc, key, request, turn, found);
        tell_item(got.item, step);
        tell_reply(got.reply, step);
    }
}

// Stores an item, as its mode has it.
fn meta_store(
    lane: &mut Lane,
    alloc: Global,
    key: &[u8],
    invalidates: bool,
    turn: CommandTurn,
    found: &mut ValueBuffer,
    step: &mut TextStep<'_>,
)
    requires { IsKey key.now }
{
    let request = MetaSet {
        mode: meta_mode_of(step),
        compare: number_or(step, b"any"),
        invalidates,
    };
    let head = head_of(step);
    let data = data_of(step);
    let item = CacheItem {
        head,
        bytes: data.as_slice(),
    };
    tell_reply(meta_set(lane, alloc, key, request, item, turn, found), step);
}

// Takes a mode.
fn meta_mode_of(step: &mut TextStep<'_>) -> MetaMode {
    let word = step.word();
    if is(word, b"add") {
        return MetaMode::Add;
    }
    if is(word, b"replace") {
        return MetaMode::Replace;
    }
    if is(word, b"append") {
        return MetaMode::Append;
    }
    if is(word, b"prepend") {
        return MetaMode::Prepend;
    }
    if !is(word, b"set") {
        step.refuse();
    }
    MetaMode::Set
}

// Takes the cas unique and the change of expiry of an item that is marked as stale, if it is.
fn invalidation_of(invalidates: bool, step: &mut TextStep<'_>) -> Option<Invalidation> {
    if !invalidates {
        return None;
    }
    Some(Invalidation {
        cas: step.number(),
        touch: touch_of(step),
    })
}

// Takes a change of expiry: `stays`, or `to` and the new one.
fn touch_of(step: &mut TextStep<'_>) -> ExpiryChange {
    let word = step.word();
    if is(word, b"stays") {
        return ExpiryChange::Stays;
    }
    if !is(word, b"to") {
        step.refuse();
    }
    becomes(step)
}

// Takes a new expiry.
fn becomes(step: &mut TextStep<'_>) -> ExpiryChange {
    ExpiryChange::Becomes(expiry_of(step))
}

// Takes a change of a number: how much, the cas unique that the item gets, the one to compare, the change of its expiry, and what a
// miss stores, if anything.
fn meta_delta_of(is_up: bool, step: &mut TextStep<'_>) -> MetaDelta {
    let amount = step.number();
    MetaDelta {
        change: if is_up {
            Change::Increment(amount)
        } else {
            Change::Decrement(amount)
        },
        cas: step.number(),
        compare: number_or(step, b"any"),
        touch: touch_of(step),
        initial: initial_of(step),
    }
}

// Takes the number that a miss stores and its expiry, or `none`.
fn initial_of(step: &mut TextStep<'_>) -> Option<InitialNumber> {
    let number = number_or(step, b"none")?;
    Some(InitialNumber {
        number,
        expires: expiry_of(step),
    })
}

// Takes what the flags of a meta get ask for: `T` an expiry, `N` an expiry and a cas unique, and `R` a moment.
fn meta_get_of(word: &[u8], step: &mut TextStep<'_>) -> MetaGet {
    let mut request = MetaGet {
        touch: ExpiryChange::Stays,
        vivify: None,
        recache: None,
    };
    if is(word, b"mg-T") {
        request.touch = becomes(step);
    } else if is(word, b"mg-N") {
        request.vivify = Some(vivify_of(step));
    } else if is(word, b"mg-R") {
        request.recache = Some(recache_of(false, step));
    } else if is(word, b"mg-RT") {
        request.recache = Some(recache_of(false, step));
        request.touch = becomes(step);
    } else if is(word, b"mg-TR") {
        request.touch = becomes(step);
        request.recache = Some(recache_of(true, step));
    } else if !is(word, b"mg") {
        step.refuse();
    }
    request
}

// Takes the expiry and the cas unique of what a miss stores.
fn vivify_of(step: &mut TextStep<'_>) -> Vivify {
    Vivify {
        expires: expiry_of(step),
        cas: step.number(),
    }
}

// Takes the moment before which an item that ends is to be refreshed.
fn recache_of(is_after_touch: bool, step: &mut TextStep<'_>) -> Recache {
    Recache {
        before: step.small(),
        is_after_touch,
    }
}
