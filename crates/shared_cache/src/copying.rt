// Copies of recorded calls.
ghost use Rattle.std.specs.Prelude.{◌≡◌, IfOk};
ghost use Rattle.record_pages.specs.Bounded.{IsKey, IsValue};
ghost use Rattle.trace_file.specs.Calls.{value_of};
ghost use Rattle.trace_file.specs.Lent.{act_shown};
ghost use Rattle.recorded_lane.specs.Points.{noted_shown};

use record_pages::{Key, Value};
use recorded_lane::{Noted, NotedRef};
use std::alloc::{AllocError, Global};
use trace_file::{Act, ActRef};

/// A copy of a recorded call, or `AllocError` if memory was refused.
pub(crate) fn copy_of(alloc: Global, call: &NotedRef<'_>) -> Result<Noted, AllocError>
    requires key { IsKey call.now.key.now }
    requires value { IsValue (value_of (act_shown call.now.act)) }
    ensures { IfOk result (λ copy. copy ≡ noted_shown call.now) }
{
    Ok(Noted {
        caller: call.caller,
        start: call.start,
        point: call.point,
        key: key_of(alloc, call.key)?,
        act: act_of(alloc, call.act)?,
    })
}

/// The key of these bytes.
fn key_of(alloc: Global, bytes: &[u8]) -> Result<Key, AllocError>
    requires { IsKey bytes.now }
    ensures { IfOk result (λ key. key ≡ bytes.now) }
{
    match Key::new(alloc, bytes) {
        Ok(key) => Ok(key),
        Err(_) => Err(AllocError),
    }
}

/// The value of these bytes.
fn value_in(alloc: Global, bytes: &[u8]) -> Result<Value, AllocError>
    requires { IsValue bytes.now }
    ensures { IfOk result (λ value. value ≡ bytes.now) }
{
    match Value::new(alloc, bytes) {
        Ok(value) => Ok(value),
        Err(_) => Err(AllocError),
    }
}

/// A copy of an act.
fn act_of(alloc: Global, act: ActRef<'_>) -> Result<Act, AllocError>
    requires { IsValue (value_of (act_shown act)) }
    ensures { IfOk result (λ copy. copy ≡ act_shown act.entry) }
{
    match act {
        ActRef::Put(bytes, expires) => Ok(Act::Put(value_in(alloc, bytes)?, expires)),
        ActRef::Remove => Ok(Act::Remove),
        ActRef::Hit(bytes, moment) => Ok(Act::Hit(value_in(alloc, bytes)?, moment)),
        ActRef::Miss => Ok(Act::Miss),
    }
}
