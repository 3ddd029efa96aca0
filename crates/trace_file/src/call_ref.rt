// A call of a history, lent.
ghost use Rattle.std.specs.Prelude.{◌≡◌};

use crate::act_ref::ActRef;

/// One call of a history, with the bytes of its key and value lent by the history.
#[derive(Clone, Copy)]
pub struct CallRef<'a> {
    /// The number of the caller.
    pub caller: u16,
    /// The stamp at which the call started.
    pub start: u64,
    /// The stamp at which it ended.
    pub end: u64,
    /// The bytes of its key.
    pub key: &'a [u8],
    /// What it did.
    pub act: ActRef<'a>,
}

impl<'a> CallRef<'a> {
    ghost use Rattle.record_pages.specs.Bounded.{IsKey, IsValue};
    ghost use Rattle.trace_file.specs.Calls.{IsCall, value_of};
    ghost use Rattle.trace_file.specs.Lent.{act_shown, call_shown};

    /// The call with these parts.
    pub fn new(caller: u16, start: u64, end: u64, key: &'a [u8], act: ActRef<'a>) -> CallRef<'a>
        requires key { IsKey key.now }
        requires value { IsValue (value_of (act_shown act)) }
        ensures call { call_shown result ≡ record {
          caller = caller;
          start = start;
          end = end;
          key = key.now;
          act = act_shown act.entry;
        } }
        ensures lawful { IsCall (call_shown result) }
    {
        let _time = act.time();
        CallRef {
            caller,
            start,
            end,
            key,
            act,
        }
    }
}
