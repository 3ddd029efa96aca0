// The calls of a lane.
ghost use Rattle.std.specs.Prelude.{◌≡◌, ◌-◌, ◌<◌, ◌++◌, ◌∷◌, [], length, map, take, slice_get, Some, OnOk, OnErr};
ghost use Rattle.record_pages.specs.Bounded.{IsKey, IsValue};
ghost use Rattle.trace_file.specs.Calls.{value_of};
ghost use Rattle.trace_file.specs.Lent.{act_shown};
ghost use Rattle.recorded_lane.specs.Lane.{noted_at};
ghost use Rattle.recorded_lane.specs.Points.{at_point, noted_shown};

use crate::noted_ref::NotedRef;
use record_pages::Key;
use std::alloc::{AllocError, Global};
use std::marker::Model;
use trace_file::{ActRef, CallRef, History};

/// The calls of a lane, whose bytes lie in one store. Each is kept with its point for its end.
#[derive(Drop)]
pub(crate) struct CallRecord {
    history: History,
}

impl Model for CallRecord {
    ghost use Rattle.std.specs.Prelude.{List, map};
    ghost use Rattle.recorded_lane.specs.declared.noted.Noted.{Noted};
    ghost use Rattle.recorded_lane.specs.Points.{noted_in};

    ghost Value = { List Noted };

    ghost view = { λ r. map noted_in r.history };
}

impl CallRecord {
    /// No calls. It takes no memory.
    pub(crate) fn new(alloc: Global) -> CallRecord
        ensures { result ≡ [] }
    {
        CallRecord {
            history: History::new(alloc),
        }
    }

    /// How many calls there are.
    pub(crate) fn len(&self) -> usize
        ensures { result ≡ length self.now }
    {
        self.history.len()
    }

    /// Records a call after the others, or leaves them as they were if memory is refused.
    pub(crate) fn push(
        &mut self,
        caller: u16,
        start: u64,
        point: u64,
        key: &Key,
        act: ActRef<'_>,
    ) -> Result<(), AllocError>
        requires { IsValue (value_of (act_shown act)) }
        ensures ok { OnOk result (self.new
            ≡ self.old ++ noted_at caller start point key.now (act_shown act.entry) ∷ []) }
        ensures err { OnErr result (self.new ≡ self.old) }
    {
        let call = CallRef::new(caller, start, point, key.bytes(), act);
        self.history.push_ref(&call)?;
        Ok(())
    }

    /// Takes the last call off, if there is one, with its bytes.
    pub(crate) fn drop_last(&mut self)
        ensures { self.new ≡ take (length self.old - 1) self.old }
    {
        self.history.drop_last();
    }

    /// The call at a position, lent.
    pub(crate) fn at(&self, position: usize) -> NotedRef<'_>
        requires { position < length self.now }
        ensures call { slice_get self.now position ≡ Some (noted_shown result) }
        ensures key { IsKey result.key.now }
        ensures value { IsValue (value_of (act_shown result.act)) }
    {
        let call = self.history.at(position);
        NotedRef {
            caller: call.caller,
            start: call.start,
            point: call.end,
            key: call.key,
            act: call.act,
        }
    }

    /// The calls, each with its point for its end. It takes no memory.
    pub(crate) fn into_history(self) -> History
        ensures { result ≡ map at_point self }
    {
        self.history
    }
}
