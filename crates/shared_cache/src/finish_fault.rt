// Why a cache was not finished.

use std::alloc::AllocError;
use thiserror::Error;

/// Why a cache was not finished. The cache, the passes and the devices are dropped with it.
///
/// `MissingPass` is tested first, then `LaneLost`, `Strange` and `Unlisted`, each at its first case. `OutOfMemory` may
/// come in place of any of these but `MissingPass`.
#[derive(Clone, Copy, Debug, PartialEq, Eq, Error)]
pub enum FinishFault {
    /// No pass of this caller was given: the least such caller.
    #[error("the pass of caller {caller} is missing")]
    MissingPass { caller: u16 },
    /// The call that stands here in the pass of this caller is of no lane of the cache, or is not the lane's call at
    /// its position, or an earlier listed call is of that position. It is the first such call, by caller, then call.
    #[error("call {call} of caller {caller} was not recorded as it is listed")]
    Strange { caller: u16, call: usize },
    /// Memory was refused.
    #[error("out of memory")]
    OutOfMemory,
    /// What stands in the place of this lane is another lane, or one of another configuration.
    #[error("lane {lane} is lost")]
    LaneLost { lane: u32 },
    /// No pass lists the call at this position of the lane.
    #[error("no pass lists call {position} of lane {lane}")]
    Unlisted { lane: u32, position: usize },
}

impl From<AllocError> for FinishFault {
    ghost use Rattle.std.specs.Prelude.{◌≡◌};
    ghost use Rattle.shared_cache.specs.declared.finish_fault.FinishFault.TheVariants.{OutOfMemory};

    ghost from_gives = { λ _ fault. fault ≡ OutOfMemory };

    fn from(_refused: AllocError) -> FinishFault {
        FinishFault::OutOfMemory
    }
}
