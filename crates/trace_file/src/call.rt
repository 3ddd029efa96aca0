// A recorded call.
ghost use Rattle.std.specs.Prelude.{◌≡◌};

use crate::act::Act;
use crate::call_ref::CallRef;
use record_pages::Key;

/// One call of a history: who made it, when it started and ended, at which key, and what it did.
#[derive(Drop)]
pub struct Call {
    /// The number of the caller.
    pub caller: u16,
    /// The stamp at which the call started.
    pub start: u64,
    /// The stamp at which it ended.
    pub end: u64,
    /// The key that it was made for.
    pub key: Key,
    /// What it did.
    pub act: Act,
}

impl Call {
    ghost use Rattle.trace_file.specs.Calls.{IsCall};
    ghost use Rattle.trace_file.specs.Lent.{call_shown};

    /// The call, lent.
    pub fn lent(&self) -> CallRef<'_>
        ensures call { call_shown result ≡ self.now }
        ensures lawful { IsCall (call_shown result) }
    {
        let key = self.key.bytes();
        let act = self.act.lent();
        CallRef::new(self.caller, self.start, self.end, key, act)
    }
}
