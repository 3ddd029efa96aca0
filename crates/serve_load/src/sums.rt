// What the callers of a load did together.
ghost use Rattle.std.specs.Prelude.{◌≡◌, ◌≤◌, ◌*◌, ◌+◌, ◌<◌, ◌^◌, [], IfOk, OnOk};
ghost use Rattle.serve_load.specs.Calls.{completed};
ghost use Rattle.serve_load.specs.Tallies.{AddUp, with_hit};
ghost use Rattle.serve_load.specs.Times.{JoinsOf};

use crate::call_times::CallTimes;
use crate::caller_stop::CallerStop;
use crate::tally::{Tally, Tallying};
use crate::told_hit::ToldHit;
use crossbeam_channel::Receiver;
use load::ServeLoad;
use std::alloc::{AllocError, Global};
use std::sync::Wait;

/// What callers did together.
#[derive(Drop)]
pub(crate) struct Sums {
    pub(crate) operations: u64,
    pub(crate) refused: u64,
    /// Callers that ended by themselves.
    pub(crate) whole: u64,
    /// The wrong hits at which the others stopped.
    pub(crate) hits: Vec<ToldHit>,
    pub(crate) times: CallTimes,
}

impl Sums {
    /// What no callers did.
    fn none(alloc: Global) -> Result<Sums, AllocError>
        ensures operations { IfOk result (λ sums. sums.operations ≡ 0) }
        ensures refused { IfOk result (λ sums. sums.refused ≡ 0) }
        ensures whole { IfOk result (λ sums. sums.whole ≡ 0) }
        ensures hits { IfOk result (λ sums. sums.hits.items ≡ []) }
        ensures gets { IfOk result (λ sums. sums.times.gets ≡ []) }
        ensures puts { IfOk result (λ sums. sums.times.puts ≡ []) }
    {
        Ok(Sums {
            operations: 0,
            refused: 0,
            whole: 0,
            hits: Vec::new(alloc),
            times: CallTimes::new(alloc)?,
        })
    }

    /// Adds what a caller did. It is an error only if memory for its wrong hit runs out.
    fn add<M: Tallying>(&mut self, tally: Tally<M>) -> Result<(), AllocError>
        requires operations { self.old.operations < 2 ^ 63 }
        requires refused { self.old.refused < 2 ^ 63 }
        requires whole { self.old.whole < 2 ^ 63 }
        ensures operations { self.new.operations ≡ self.old.operations + tally.counted.operations }
        ensures refused { self.new.refused ≡ self.old.refused + tally.counted.refused }
        ensures whole { OnOk result (self.new.whole ≡ self.old.whole + completed tally.counted.stop) }
        ensures hits { OnOk result (self.new.hits.items
            ≡ with_hit self.old.hits.items tally.counted.stop) }
        ensures times { JoinsOf tally.times self.old.times self.new.times }
    {
        self.operations += u64::from(tally.counted.operations);
        self.refused += u64::from(tally.counted.refused);
        if let Some(times) = &tally.times {
            self.times.merge(times);
        }
        self.add_stop(tally.counted.stop)
    }

    /// Adds why a caller stopped.
    fn add_stop(&mut self, stop: CallerStop) -> Result<(), AllocError>
        requires { self.old.whole < 2 ^ 63 }
        ensures operations { self.new.operations ≡ self.old.operations }
        ensures refused { self.new.refused ≡ self.old.refused }
        ensures whole { OnOk result (self.new.whole ≡ self.old.whole + completed stop) }
        ensures hits { OnOk result (self.new.hits.items ≡ with_hit self.old.hits.items stop) }
        ensures times { self.new.times ≡ self.old.times }
    {
        match stop {
            CallerStop::AllMade | CallerStop::TimeOver => {
                self.whole += 1;
                Ok(())
            }
            CallerStop::Halted => Ok(()),
            CallerStop::Wrong(hit) => match self.hits.push(hit) {
                Ok(()) => Ok(()),
                Err(_) => Err(AllocError),
            },
        }
    }
}

/// What the callers did together whose tallies came. One that had no thread left none.
pub(crate) fn sums_of<M: Tallying, R: Wait>(
    rt: &R,
    alloc: Global,
    load: &ServeLoad,
    from: &Receiver<Tally<M>>,
) -> Result<Sums, AllocError>
    requires { M.most ≡ load.now.operations }
    ensures most { IfOk result (λ sums. sums.operations ≤ load.now.callers * load.now.operations) }
    ensures whole { IfOk result (λ sums. M.seconds ≡ 0
        → sums.whole * load.now.operations ≤ sums.operations) }
    ensures sums { IfOk result (λ sums. AddUp M.is_tally load.now.callers
        sums.operations sums.refused sums.whole sums.hits.items) }
{
    let mut sums = Sums::none(alloc)?;
    for _ in 0..load.callers {
        let Ok(tally) = from.try_recv(rt) else {
            return Ok(sums);
        };
        sums.add(tally)?;
    }
    Ok(sums)
}
