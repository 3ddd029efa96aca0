// What is known of each key of a history.
ghost use Rattle.std.specs.Prelude.{◌≡◌, ℕ, ◌<◌, ◌^◌, List, true, IfOk, OnOk, length};
ghost use Rattle.trace_file.specs.declared.act.Act.TheVariants as acts;
ghost use Rattle.trace_file.specs.Lent.{act_shown, call_shown};
ghost use Rattle.history_window.specs.Knowing.{FirstKnown, SecondKnown};
ghost use Rattle.history_window.specs.States.{Changes, acts_match, after_first, after_second, state_at, unlike_by};
ghost use Rattle.history_window.specs.Acts.{is_putting, is_reading, is_writing};

use crate::key_state::KeyState;
use std::alloc::{AllocError, Global};
use std::collections::HashMap;
use std::hash::BuildHasher;
use trace_file::{ActRef, CallRef, History, LentWord};

/// Whether an act writes.
pub(crate) fn is_write(act: &ActRef<'_>) -> bool
    ensures { result ≡ is_writing (act_shown act.now) }
{
    match act {
        ActRef::Put(..) => true,
        ActRef::Remove => true,
        ActRef::Hit(..) => false,
        ActRef::Miss => false,
    }
}

/// Whether an act is a hit.
pub(crate) fn is_hit(act: &ActRef<'_>) -> bool
    ensures { result ≡ is_reading (act_shown act.now) }
{
    match act {
        ActRef::Put(..) => false,
        ActRef::Remove => false,
        ActRef::Hit(..) => true,
        ActRef::Miss => false,
    }
}

/// Whether an act puts a value.
pub(crate) fn is_put(act: &ActRef<'_>) -> bool
    ensures { result ≡ is_putting (act_shown act.now) }
{
    match act {
        ActRef::Put(..) => true,
        ActRef::Remove => false,
        ActRef::Hit(..) => false,
        ActRef::Miss => false,
    }
}

/// Whether two acts write the same.
fn same_act(one: &ActRef<'_>, other: &ActRef<'_>) -> bool
    ensures { result ≡ acts_match (act_shown one.now) (act_shown other.now) }
{
    match one {
        ActRef::Put(value, expires) => puts_same(value, *expires, other),
        ActRef::Remove => is_remove(other),
        ActRef::Hit(..) => false,
        ActRef::Miss => false,
    }
}

/// Whether an act puts this value with this expiry.
fn puts_same(value: &[u8], expires: u64, other: &ActRef<'_>) -> bool
    ensures { result ≡ acts_match (acts.Put value.now expires) (act_shown other.now) }
{
    match other {
        ActRef::Put(bytes, till) => value == *bytes && expires == *till,
        ActRef::Remove => false,
        ActRef::Hit(..) => false,
        ActRef::Miss => false,
    }
}

/// Whether an act removes.
fn is_remove(act: &ActRef<'_>) -> bool
    ensures { result ≡ acts_match acts.Remove (act_shown act.now) }
{
    match act {
        ActRef::Put(..) => false,
        ActRef::Remove => true,
        ActRef::Hit(..) => false,
        ActRef::Miss => false,
    }
}

/// What is known of a key.
pub(crate) fn state_of<'a, S: BuildHasher>(
    states: &HashMap<LentWord<'a>, KeyState, S>,
    key: LentWord<'a>,
) -> KeyState
    ensures { result ≡ state_at states.now key.entry.bytes.now }
{
    match states.get(&key) {
        Some(state) => *state,
        None => KeyState::none(),
    }
}

/// Sets what is known of a call's key.
fn set_state<'a, S: BuildHasher>(
    states: &mut HashMap<LentWord<'a>, KeyState, S>,
    call: &CallRef<'a>,
    state: KeyState,
) -> Result<(), AllocError>
    ensures { OnOk result (Changes true (call_shown call.now) state (state_at states.old) (state_at states.new)) }
{
    let key = LentWord { bytes: call.key };
    states.insert(key, state)?;
    Ok(())
}

/// Notes a call, if it writes.
fn note_write<'a, S: BuildHasher>(
    states: &mut HashMap<LentWord<'a>, KeyState, S>,
    call: &CallRef<'a>,
) -> Result<(), AllocError>
    ensures { OnOk result (Changes (is_writing (act_shown call.now.act)) (call_shown call.now) (after_first (state_at states.old call.now.key.now) (call_shown call.now)) (state_at states.old) (state_at states.new)) }
{
    if !is_write(&call.act) {
        return Ok(());
    }
    let state = state_of(states, LentWord { bytes: call.key });
    set_state(states, call, state.after_write(call))
}

/// Whether a call does not do what the latest one of the last writes did.
fn is_unlike(history: &History, state: KeyState, call: &CallRef<'_>) -> bool
    ensures { result ≡ unlike_by history.now state (call_shown call.now) }
{
    if !state.known || state.latest as usize >= history.len() {
        return false;
    }
    let latest = history.at(state.latest as usize);
    !same_act(&latest.act, &call.act)
}

/// Notes a call, if it writes, once the greatest starts are known.
fn note_place<'a, S: BuildHasher>(
    states: &mut HashMap<LentWord<'a>, KeyState, S>,
    history: &'a History,
    position: u32,
    call: &CallRef<'a>,
) -> Result<(), AllocError>
    ensures { OnOk result (Changes (is_writing (act_shown call.now.act)) (call_shown call.now) (after_second (state_at states.old call.now.key.now) position (call_shown call.now) (unlike_by history.now (state_at states.old call.now.key.now) (call_shown call.now))) (state_at states.old) (state_at states.new)) }
{
    if !is_write(&call.act) {
        return Ok(());
    }
    let state = state_of(states, LentWord { bytes: call.key });
    let unlike = is_unlike(history, state, call);
    set_state(states, call, state.after_place(position, call, unlike))
}

/// The greatest start and the greatest end of the writes of each key.
fn first_pass<'a, S: BuildHasher + Drop>(
    alloc: Global,
    hash_builder: S,
    history: &'a History,
) -> Result<HashMap<LentWord<'a>, KeyState, S>, AllocError>
    ensures { IfOk result (λ states. (key : List ℕ) → FirstKnown history.now (length history.now) key (state_at states key)) }
{
    let mut states = HashMap::with_hasher(alloc, hash_builder);
    for position in 0..history.len() {
        let call = history.at(position);
        note_write(&mut states, &call)?;
    }
    Ok(states)
}

/// And whether the last writes of each key did the same.
fn second_pass<'a, S: BuildHasher>(
    states: &mut HashMap<LentWord<'a>, KeyState, S>,
    history: &'a History,
) -> Result<(), AllocError>
    requires few { length history.now < 2 ^ 31 }
    requires first { (key : List ℕ) → FirstKnown history.now (length history.now) key (state_at states.old key) }
    ensures { OnOk result ((key : List ℕ) → SecondKnown history.now (length history.now) key (state_at states.new key)) }
{
    for position in 0..history.len() {
        let call = history.at(position);
        note_place(states, history, position as u32, &call)?;
    }
    Ok(())
}

/// What is known of each key of a history.
pub(crate) fn states_of<'a, S: BuildHasher + Drop>(
    alloc: Global,
    hash_builder: S,
    history: &'a History,
) -> Result<HashMap<LentWord<'a>, KeyState, S>, AllocError>
    requires { length history.now < 2 ^ 31 }
    ensures { IfOk result (λ states. (key : List ℕ) → SecondKnown history.now (length history.now) key (state_at states key)) }
{
    let mut states = first_pass(alloc, hash_builder, history)?;
    second_pass(&mut states, history)?;
    Ok(states)
}
