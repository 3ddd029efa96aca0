// The done calls of a lane.
ghost use Rattle.std.specs.Prelude.{◌≡◌, ◌<◌, [], ◌∷◌, ◌++◌, ◌↔◌, IsTrue, Some, length, map, OnOk, OnErr, slice_get};
ghost use Rattle.std.specs.Option.{option_map};
ghost use Rattle.trace_file.specs.Calls.{IsCall};
ghost use Rattle.trace_file.specs.Lent.{call_shown};
ghost use Rattle.certificate_checker.specs.Lanes.{calls_of};
ghost use Rattle.history_recorder.specs.Done.{done_with, dones_in};

use certificate_checker::Done;
use std::alloc::{AllocError, Global};
use std::marker::Model;
use trace_file::{CallRef, History};

/// The done calls of one lane, in the order in which they were done. The bytes of all of them lie in one place.
#[derive(Drop)]
pub struct Dones {
    // Each call with its point for its end.
    calls: History,
    ends: Vec<u64>,
}

impl Model for Dones {
    ghost use Rattle.std.specs.Prelude.{◌≡◌, List, length};
    ghost use Rattle.certificate_checker.specs.declared.done.Done.{Done};
    ghost use Rattle.history_recorder.specs.Done.{dones_in};

    ghost Value = { List Done };

    ghost view = { λ list. dones_in list.calls list.ends.items };

    ghost invariant = { λ list. length list.ends.items ≡ length list.calls };
}

impl Dones {
    /// The list of no calls. It takes no memory.
    pub fn new(alloc: Global) -> Dones
        ensures { result ≡ [] }
    {
        Dones {
            calls: History::new(alloc),
            ends: Vec::new(alloc),
        }
    }

    /// The calls of a lane that kept each with its point for its end, with these ends, one a call. It takes no memory.
    pub fn of(calls: History, ends: Vec<u64>) -> Dones
        requires { length ends.items ≡ length calls }
        ensures { result ≡ dones_in calls ends.items }
    {
        Dones { calls, ends }
    }

    /// How many calls there are.
    pub fn len(&self) -> usize
        ensures { result ≡ length self.now }
    {
        self.ends.len()
    }

    /// Whether there are no calls.
    pub fn is_empty(&self) -> bool
        ensures { IsTrue result ↔ (self.now ≡ []) }
    {
        self.len() == 0
    }

    /// Puts a call after the others, or drops it and leaves the list as it was if memory is refused.
    pub fn push(&mut self, done: Done) -> Result<(), AllocError>
        ensures ok { OnOk result (self.new ≡ self.old ++ done ∷ []) }
        ensures err { OnErr result (self.new ≡ self.old) }
    {
        let call = done.call.lent();
        let at_point = CallRef::new(call.caller, call.start, done.point, call.key, call.act);
        self.push_lent(&at_point, call.end)?;
        Ok(())
    }

    /// Puts a call that is lent with its point for its end after the others, with this end, or leaves the list as it was
    /// if memory is refused.
    fn push_lent(&mut self, at_point: &CallRef<'_>, end: u64) -> Result<(), AllocError>
        requires { IsCall (call_shown at_point.now) }
        ensures ok { OnOk result (self.new ≡ self.old ++ done_with (call_shown at_point.now) end ∷ []) }
        ensures err { OnErr result (self.new ≡ self.old) }
    {
        self.ends.reserve(1)?;
        self.calls.push_ref(at_point)?;
        self.ends.push(end).unwrap();
        Ok(())
    }

    /// The call with this number, counted from 0, lent.
    pub fn at(&self, number: usize) -> CallRef<'_>
        requires { number < length self.now }
        ensures call { option_map (λ done. done.call) (slice_get self.now number) ≡ Some (call_shown result) }
        ensures lawful { IsCall (call_shown result) }
    {
        let call = self.calls.at(number);
        CallRef::new(
            call.caller,
            call.start,
            self.ends[number],
            call.key,
            call.act,
        )
    }

    /// Puts the calls after those of a history, or leaves the history as it was if memory is refused. After none no
    /// byte is copied, and no memory taken.
    pub(crate) fn put_behind(self, history: &mut History) -> Result<(), AllocError>
        ensures { OnOk result (history.new ≡ history.old ++ calls_of self) }
    {
        let Dones { calls, ends } = self;
        if history.is_empty() {
            *history = calls.ending(ends.as_slice());
            return Ok(());
        }
        history.extend_ending(&calls, ends.as_slice())
    }

    /// The stamp at which the call with this number was done.
    pub fn point(&self, number: usize) -> u64
        requires { number < length self.now }
        ensures { option_map (λ done. done.point) (slice_get self.now number) ≡ Some result }
    {
        self.calls.at(number).end
    }
}
