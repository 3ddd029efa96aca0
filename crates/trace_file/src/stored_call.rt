// Where a call lies in a store of bytes.
ghost use Rattle.std.specs.Prelude.{◌≡◌, ◌+◌, ◌<◌, ◌^◌, ◌++◌, List, ℕ, length};
ghost use Rattle.trace_file.specs.Calls.{IsCall, time_of, value_of};
ghost use Rattle.trace_file.specs.Lent.{act_shown, call_shown};
ghost use Rattle.trace_file.specs.Stored.{LiesIn, act_of, call_in, moved_by};

use crate::act_ref::ActRef;
use crate::call_kind::CallKind;
use crate::call_ref::CallRef;

/// A call whose key and value lie in a store of bytes: the key at `offset`, the value after it. It is for those who
/// keep calls in a store of their own.
#[derive(Clone, Copy)]
pub struct StoredCall {
    pub(crate) start: u64,
    pub(crate) end: u64,
    pub(crate) time: u64,
    pub(crate) offset: usize,
    pub(crate) caller: u16,
    pub(crate) value_len: u16,
    pub(crate) key_len: u8,
    pub(crate) kind: CallKind,
}

impl StoredCall {
    /// The entry of a call whose key and then its value are put at this offset.
    pub fn of(call: &CallRef<'_>, offset: usize) -> StoredCall
        requires { IsCall (call_shown call.now) }
        ensures lies { LiesIn (offset + length call.now.key.now
            + length (value_of (act_shown call.now.act))) result }
        ensures behind { result.offset ≡ offset }
        ensures call { (store : List ℕ) → offset ≡ length store →
            call_in ((store ++ call.now.key.now) ++ value_of (act_shown call.now.act)) result
            ≡ call_shown call.now }
    {
        let value = call.act.value();
        StoredCall {
            start: call.start,
            end: call.end,
            time: call.act.time(),
            offset,
            caller: call.caller,
            value_len: value.len() as u16,
            key_len: call.key.len() as u8,
            kind: call.act.kind(),
        }
    }

    /// The call, lent by the store in which it lies.
    pub fn lent<'a>(&self, store: &'a [u8]) -> CallRef<'a>
        requires { LiesIn (length store.now) self.now }
        ensures call { call_shown result ≡ call_in store.now self.now }
        ensures lawful { IsCall (call_shown result) }
    {
        let key_end = self.offset + self.key_len as usize;
        let value_end = key_end + self.value_len as usize;
        CallRef {
            caller: self.caller,
            start: self.start,
            end: self.end,
            key: &store[self.offset..key_end],
            act: lent(self.kind, &store[key_end..value_end], self.time),
        }
    }
}

impl StoredCall {
    /// The entry of a call that lies this many bytes farther, and has this end.
    pub(crate) fn moved(self, bytes: usize, end: u64) -> StoredCall
        requires { self.offset + bytes < 2 ^ 64 }
        ensures { result ≡ moved_by bytes self end }
    {
        StoredCall {
            end,
            offset: self.offset + bytes,
            ..self
        }
    }
}

/// The act of a kind, with the bytes of its value and its time if it has them.
fn lent(kind: CallKind, value: &[u8], time: u64) -> ActRef<'_>
    ensures { act_shown result ≡ act_of kind value.now time }
{
    match kind {
        CallKind::Put => ActRef::Put(value, time),
        CallKind::Remove => ActRef::Remove,
        CallKind::Hit => ActRef::Hit(value, time),
        CallKind::Miss => ActRef::Miss,
    }
}
