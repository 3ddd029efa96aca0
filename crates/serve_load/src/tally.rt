// How a caller of a load ended.
ghost use Rattle.std.specs.Prelude.{◌≤◌};
ghost use Rattle.serve_load.specs.Calls.{IsComplete};

use crate::call_times::CallTimes;
use crate::caller_tally::CallerTally;
use std::marker::{Brand, PhantomData};

/// What a type says of the load whose callers send their tallies: how many operations a caller makes at the most, its limit in
/// seconds, and what a caller may have counted at its end.
pub(crate) trait Tallying {
    ghost use Rattle.std.specs.Prelude.{ℕ};
    ghost use Rattle.serve_load.specs.declared.caller_tally.CallerTally.{CallerTally};

    ghost most: { ℕ };

    ghost seconds: { ℕ };

    ghost is_tally: { CallerTally → Type 0 };
}

impl Tallying for Brand {
    ghost most = { 0 };

    ghost seconds = { 0 };

    ghost is_tally = { λ counted. Unit {0} };
}

/// How a caller ended.
#[derive(Drop)]
pub(crate) struct Tally<M: Tallying> {
    pub(crate) counted: CallerTally,
    /// How long its calls took; none if memory for them was refused, and then it made no operation.
    pub(crate) times: Option<CallTimes>,
    pub(crate) of: PhantomData<M>,
    ghost some: { counted.operations ≤ M.most },
    ghost few_refused: { counted.refused ≤ counted.operations },
    ghost whole: { IsComplete M.seconds M.most counted },
    ghost is: { ∥ M.is_tally counted ∥₁ },
}
