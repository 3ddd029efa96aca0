// What a call did.
ghost use Rattle.std.specs.Prelude.{◌≡◌, ◌<◌, ◌^◌};

use crate::act_ref::ActRef;
use record_pages::Value;

/// What a call did to its key.
#[derive(Drop)]
pub enum Act {
    /// It put this value, which expires at this moment, or never with `2^64 - 1`.
    Put(Value, u64),
    /// It removed the key.
    Remove,
    /// It read this value, asked for at this moment.
    Hit(Value, u64),
    /// It read nothing. A cache may always forget.
    Miss,
}

impl Act {
    ghost use Rattle.record_pages.specs.Bounded.{IsValue};
    ghost use Rattle.trace_file.specs.Calls.{time_of, value_of};
    ghost use Rattle.trace_file.specs.Lent.{act_shown};

    /// The act, lent.
    pub fn lent(&self) -> ActRef<'_>
        ensures act { act_shown result ≡ self.now }
        ensures value { IsValue (value_of self.now) }
        ensures time { time_of self.now < 2 ^ 64 }
    {
        match self {
            Act::Put(value, expires) => ActRef::Put(value.bytes(), *expires),
            Act::Remove => ActRef::Remove,
            Act::Hit(value, moment) => ActRef::Hit(value.bytes(), *moment),
            Act::Miss => ActRef::Miss,
        }
    }
}
