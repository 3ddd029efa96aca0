// How long the calls of callers took.
ghost use Rattle.std.specs.Prelude.{◌≡◌, IfOk, []};
ghost use Rattle.serve_load.specs.Times.{AreTold, IsJoined, IsNoted, IsNotedOnce, nanos_between};

use crate::report::Timed;
use load::{Histogram, LONGEST, ServeOperation};
use std::alloc::{AllocError, Global};
use std::time::{Clock, Instant};

/// Of this many operations of a caller, one is timed.
pub(crate) const TIMED: u32 = 16;

/// How long gets took, and how long puts took, of the calls that were timed. A get's time has the fill after a miss.
#[derive(Drop)]
pub(crate) struct CallTimes {
    pub(crate) gets: Histogram,
    pub(crate) puts: Histogram,
}

impl CallTimes {
    /// No times.
    pub(crate) fn new(alloc: Global) -> Result<CallTimes, AllocError>
        ensures gets { IfOk result (λ times. times.gets ≡ []) }
        ensures puts { IfOk result (λ times. times.puts ≡ []) }
    {
        Ok(CallTimes {
            gets: Histogram::new(alloc)?,
            puts: Histogram::new(alloc)?,
        })
    }

    /// Adds the time from the begin of an operation to now, if the clock told the one and tells the other.
    pub(crate) fn note<R: Clock>(
        &mut self,
        rt: &R,
        operation: ServeOperation,
        begin: &Option<Instant>,
    )
        ensures { IsNotedOnce operation begin.now self.old.gets self.new.gets self.old.puts self.new.puts }
    {
        let Some(begin) = begin else {
            return;
        };
        let Ok(end) = Instant::now(rt) else {
            return;
        };
        self.add_between(operation, *begin, end);
    }

    /// Adds the time from the begin of an operation to its end.
    fn add_between(&mut self, operation: ServeOperation, begin: Instant, end: Instant)
        ensures { IsNoted operation (nanos_between begin end)
            self.old.gets self.new.gets self.old.puts self.new.puts }
    {
        let taken = end.duration_since(begin).as_nanos();
        self.add(operation, taken.min(u128::from(LONGEST)) as u64);
    }

    /// Adds the time that an operation took to those of its kind. Removals are not timed.
    fn add(&mut self, operation: ServeOperation, nanoseconds: u64)
        ensures { IsNoted operation nanoseconds
            self.old.gets self.new.gets self.old.puts self.new.puts }
    {
        match operation {
            ServeOperation::Get(_) => self.gets.add(nanoseconds),
            ServeOperation::Put(_) => self.puts.add(nanoseconds),
            ServeOperation::Remove(_) => {}
        }
    }

    /// Adds the times of other calls.
    pub(crate) fn merge(&mut self, other: &CallTimes)
        ensures gets { IsJoined self.old.gets other.now.gets self.new.gets }
        ensures puts { IsJoined self.old.puts other.now.puts self.new.puts }
    {
        self.gets.merge(&other.gets);
        self.puts.merge(&other.puts);
    }

    /// What is reported of them.
    pub(crate) fn timed(&self) -> Timed
        ensures gets { AreTold self.now.gets result.gets }
        ensures puts { AreTold self.now.puts result.puts }
    {
        Timed {
            gets: self.gets.quantiles(),
            puts: self.puts.quantiles(),
        }
    }
}
