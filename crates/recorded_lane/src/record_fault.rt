// Why a recorded call is refused.
ghost use Rattle.std.specs.Prelude.{◌≡◌};
ghost use Rattle.recorded_lane.specs.declared.record_fault.RecordFault.TheVariants.{OutOfMemory};

use std::alloc::AllocError;
use thiserror::Error;

/// Why a call was refused. It is in no history. The lane is as it was, but for a get that memory refused: that may leave
/// what a get leaves in the tiers.
#[derive(Clone, Copy, Debug, PartialEq, Eq, Error)]
pub enum RecordFault {
    /// The lane has recorded `MAX_CALLS` calls.
    #[error("the history is full")]
    HistoryFull,
    /// Memory was refused.
    #[error("out of memory")]
    OutOfMemory,
}

impl From<AllocError> for RecordFault {
    ghost from_gives = { λ _ e. e ≡ OutOfMemory };

    fn from(_fault: AllocError) -> RecordFault {
        RecordFault::OutOfMemory
    }
}
