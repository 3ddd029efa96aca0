// The calls that are no settled hits.
ghost use Rattle.std.specs.Prelude.{◌≡◌, ℕ, ◌<◌, ◌^◌, List, IfOk, IsTrue, OnOk, length};
ghost use Rattle.trace_file.specs.Lent.{act_shown, call_shown};
ghost use Rattle.certificate_finder.specs.Lists.{GrowsIf};
ghost use Rattle.history_window.specs.Knowing.{SecondKnown};
ghost use Rattle.history_window.specs.Settled.{AreUnsettled};
ghost use Rattle.history_window.specs.States.{is_settled_by, settles, state_at};

use crate::key_state::KeyState;
use crate::states::{is_hit, state_of, states_of};
use certificate_finder::MAX_CALLS;
use std::alloc::{AllocError, Global};
use std::collections::HashMap;
use std::hash::BuildHasher;
use trace_file::{CallRef, History, LentWord};

/// The positions of all calls of a history but for its settled hits, in order.
///
/// A hit is settled if it ended before a stamp, if all writes of its key did too, and if the last of these, those that no write of the
/// key follows, all did the same. `hash_builder` hashes the keys. The time is that of some look-ups a call. `AllocError` comes
/// if memory was refused, and if there are more than `MAX_CALLS` calls.
pub fn unsettled<S: BuildHasher + Drop>(
    alloc: Global,
    hash_builder: S,
    history: &History,
    bound: u64,
) -> Result<Vec<u32>, AllocError>
    ensures { IfOk result (λ kept. AreUnsettled bound history.now kept.items) }
{
    if history.len() > MAX_CALLS {
        return Err(AllocError);
    }
    let states = states_of(alloc, hash_builder, history)?;
    match unsettled_by(alloc, &states, history, bound) {
        Ok(kept) => Ok(kept),
        Err(refused) => Err(refused),
    }
}

/// The same by what is known of each key.
fn unsettled_by<'a, S: BuildHasher>(
    alloc: Global,
    states: &HashMap<LentWord<'a>, KeyState, S>,
    history: &'a History,
    bound: u64,
) -> Result<Vec<u32>, AllocError>
    requires few { length history.now < 2 ^ 31 }
    requires known { (key : List ℕ) → SecondKnown history.now (length history.now) key (state_at states.now key) }
    ensures { IfOk result (λ kept. AreUnsettled bound history.now kept.items) }
{
    let mut kept = Vec::new(alloc);
    for position in 0..history.len() {
        let call = history.at(position);
        let stays = !is_settled_hit(states, &call, bound);
        list_position(&mut kept, position as u32, stays)?;
    }
    Ok(kept)
}

/// Whether a call is a settled hit.
fn is_settled_hit<'a, S: BuildHasher>(
    states: &HashMap<LentWord<'a>, KeyState, S>,
    call: &CallRef<'a>,
    bound: u64,
) -> bool
    ensures { result ≡ settles (state_at states.now call.now.key.now) bound (call_shown call.now) }
{
    if !is_hit(&call.act) || call.end >= bound {
        return false;
    }
    state_of(states, LentWord { bytes: call.key }).is_settled(bound)
}

/// Lists a position, if a test holds.
pub(crate) fn list_position(
    positions: &mut Vec<u32>,
    position: u32,
    test: bool,
) -> Result<(), AllocError>
    ensures { OnOk result (GrowsIf test position positions.old.items positions.new.items) }
{
    if test {
        positions.push(position)?;
    }
    Ok(())
}
