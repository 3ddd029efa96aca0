// What a call of a history did, lent.
ghost use Rattle.std.specs.Prelude.{◌≡◌, ◌<◌, ◌^◌};

use crate::call_kind::CallKind;

/// What a call did, with the bytes of its value lent by the history.
#[derive(Clone, Copy)]
pub enum ActRef<'a> {
    /// It put this value, which expires at this moment, or never with `2^64 - 1`.
    Put(&'a [u8], u64),
    /// It removed the key.
    Remove,
    /// It read this value, asked for at this moment.
    Hit(&'a [u8], u64),
    /// It read nothing.
    Miss,
}

impl<'a> ActRef<'a> {
    ghost use Rattle.trace_file.specs.Calls.{time_of, value_of};
    ghost use Rattle.trace_file.specs.Kinds.{kind_of};
    ghost use Rattle.trace_file.specs.Lent.{act_shown};

    /// The bytes of the value, none if the act has no value.
    pub fn value(&self) -> &'a [u8]
        ensures { result.now ≡ value_of (act_shown self.now) }
    {
        match self {
            ActRef::Put(value, _) => value,
            ActRef::Remove => &[],
            ActRef::Hit(value, _) => value,
            ActRef::Miss => &[],
        }
    }

    /// The moment at which what it put expires, or at which it was asked for; 0 if the act has none.
    pub fn time(&self) -> u64
        ensures time { result ≡ time_of (act_shown self.now) }
        ensures small { time_of (act_shown self.now) < 2 ^ 64 }
    {
        match self {
            ActRef::Put(_, expires) => *expires,
            ActRef::Remove => 0,
            ActRef::Hit(_, moment) => *moment,
            ActRef::Miss => 0,
        }
    }

    /// The kind of the act.
    pub fn kind(&self) -> CallKind
        ensures { result ≡ kind_of (act_shown self.now) }
    {
        match self {
            ActRef::Put(..) => CallKind::Put,
            ActRef::Remove => CallKind::Remove,
            ActRef::Hit(..) => CallKind::Hit,
            ActRef::Miss => CallKind::Miss,
        }
    }
}
