// A call in numbers.
ghost use Rattle.std.specs.Prelude.{◌≡◌};

use crate::call_span::CallSpan;
use crate::stamp::Stamp;
use trace_file::{CallKind, CallRef};

/// A call, with a number in place of its key and one in place of its value.
#[derive(Clone, Copy)]
pub(crate) struct NumberedCall {
    /// The number of its key.
    pub(crate) key: u32,
    /// The number of its value.
    pub(crate) value: u32,
    /// What it does.
    pub(crate) kind: CallKind,
    /// The stamp at which it started.
    pub(crate) start: u64,
    /// The stamp at which it ended.
    pub(crate) end: u64,
    /// When what it put expires, or the moment at which it was asked for.
    pub(crate) time: u64,
}

impl NumberedCall {
    ghost use Rattle.trace_file.specs.Lent.{call_shown};
    ghost use Rattle.certificate_finder.specs.Offering.{stamp_of};
    ghost use Rattle.certificate_finder.specs.Steps.{IsStep};
    ghost use Rattle.certificate_finder.specs.WarmSteps.{pair_of};

    /// The call with these numbers.
    pub(crate) fn of(call: &CallRef<'_>, key: u32, value: u32) -> NumberedCall
        ensures key { result.key ≡ key }
        ensures value { result.value ≡ value }
        ensures step { IsStep (call_shown call.now) result }
    {
        let kind = call.act.kind();
        NumberedCall {
            key,
            value,
            kind,
            start: call.start,
            end: call.end,
            time: call.act.time(),
        }
    }

    /// One of its stamps.
    pub(crate) fn stamp(&self, stamp: Stamp) -> u64
        ensures { result ≡ stamp_of stamp self.now }
    {
        match stamp {
            Stamp::Start => self.start,
            Stamp::End => self.end,
        }
    }

    /// The numbers of its key and its value, in one.
    pub(crate) fn pair(&self) -> u64
        ensures { result ≡ pair_of self.now }
    {
        self.key as u64 * 4294967296 + self.value as u64
    }

    /// When it started and ended.
    pub(crate) fn times(&self) -> CallSpan
        ensures { result ≡ record { start = self.now.start; end = self.now.end } }
    {
        CallSpan {
            start: self.start,
            end: self.end,
        }
    }
}
