// The calls of a lane.
ghost use Rattle.std.specs.Prelude.{◌≡◌, ◌++◌, ◌∷◌, [], length, map, IfOk, OnOk, OnErr, None};
ghost use Rattle.history_recorder.specs.Books.{ended_at, closed};

use crate::dones::Dones;
use crate::recorded_call::RecordedCall;
use recorded_lane::Noted;
use std::alloc::{AllocError, Global};
use std::marker::Model;

/// The calls of a lane, in the order of its record.
#[derive(Drop)]
pub(crate) struct LaneCalls {
    calls: Vec<RecordedCall>,
}

impl Model for LaneCalls {
    ghost use Rattle.std.specs.Prelude.{List};
    ghost use Rattle.history_recorder.specs.declared.recorded_call.RecordedCall.{RecordedCall};

    ghost Value = { List RecordedCall };

    ghost view = { λ list. list.calls.items };
}

impl LaneCalls {
    /// No calls. It takes no memory.
    pub(crate) fn new(alloc: Global) -> LaneCalls
        ensures { result ≡ [] }
    {
        LaneCalls {
            calls: Vec::new(alloc),
        }
    }

    /// Lists, after the others, a call that has no end yet, and tells its position.
    pub(crate) fn push(&mut self, noted: Noted) -> Result<usize, AllocError>
        ensures ok { OnOk result (self.new ≡ self.old ++ record { noted = noted; end = None } ∷ []) }
        ensures position { IfOk result (λ position. position ≡ length self.old) }
        ensures err { OnErr result (self.new ≡ self.old) }
    {
        let position = self.calls.len();
        self.calls.push(RecordedCall { noted, end: None })?;
        Ok(position)
    }

    /// The call at a position gets its end.
    pub(crate) fn set_end(&mut self, position: usize, end: u64)
        ensures { self.new ≡ ended_at position end self.old }
    {
        if position < self.calls.len() {
            self.calls[position].end = Some(end);
        }
    }

    /// The done calls. Those that were not ended end at this stamp.
    pub(crate) fn into_dones(self, alloc: Global, last: u64) -> Result<Dones, AllocError>
        ensures { IfOk result (λ dones. dones ≡ map (closed last) self) }
    {
        let mut dones = Dones::new(alloc);
        for booked in self.calls {
            dones.push(booked.closed(last))?;
        }
        Ok(dones)
    }
}
