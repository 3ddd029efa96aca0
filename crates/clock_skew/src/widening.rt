// Histories with wider calls.
ghost use Rattle.std.specs.Prelude.{◌≡◌, IfOk, map, take, length};
ghost use Rattle.trace_file.specs.Lent.{act_shown, call_shown};
ghost use Rattle.clock_skew.specs.Widening.{act_widened, widened};

use std::alloc::{AllocError, Global};
use trace_file::{ActRef, CallRef, History};

/// The history with each call widened by a skew, in the unit of its stamps: it starts so much earlier, but not before 0, and ends
/// so much later. What a put put expires so much later, and the moment of a hit is so much earlier. A sum past `2^64 - 1` is that
/// number: a value that would expire then never does.
///
/// Keys and values are copied. `AllocError` comes if memory was refused.
pub fn widened(alloc: Global, history: &History, skew: u64) -> Result<History, AllocError>
    ensures { IfOk result (λ wide. wide ≡ map (widened skew) history.now) }
{
    let mut wide = History::new(alloc);
    for position in 0..history.len() {
        let call = history.at(position);
        wide.push_ref(&call_widened(&call, skew))?;
    }
    Ok(wide)
}

/// A call that starts earlier and ends later.
fn call_widened<'a>(call: &CallRef<'a>, skew: u64) -> CallRef<'a>
    ensures { call_shown result ≡ widened skew (call_shown call.now) }
{
    CallRef {
        caller: call.caller,
        start: call.start.saturating_sub(skew),
        end: call.end.saturating_add(skew),
        key: call.key,
        act: act_widened(call.act, skew),
    }
}

/// An act whose value expires later, or that was asked for earlier.
fn act_widened(act: ActRef<'_>, skew: u64) -> ActRef<'_>
    ensures { act_shown result ≡ act_widened skew (act_shown act.entry) }
{
    match act {
        ActRef::Put(value, expires) => ActRef::Put(value, expires.saturating_add(skew)),
        ActRef::Remove => ActRef::Remove,
        ActRef::Hit(value, moment) => ActRef::Hit(value, moment.saturating_sub(skew)),
        ActRef::Miss => ActRef::Miss,
    }
}
