// Why a recorded put is refused.
ghost use Rattle.std.specs.Prelude.{◌≡◌};
ghost use Rattle.recorded_lane.specs.declared.record_put_fault.RecordPutFault.TheVariants.{OutOfMemory};

use std::alloc::AllocError;
use thiserror::Error;

/// Why a put was refused. They are tested in this order. The call is in no history and the lane is as
/// it was: an older value of the key stays.
#[derive(Clone, Copy, Debug, PartialEq, Eq, Error)]
pub enum RecordPutFault {
    /// The object does not fit on a page.
    #[error("too large")]
    TooLarge,
    /// The lane has recorded `MAX_CALLS` calls.
    #[error("the history is full")]
    HistoryFull,
    /// Memory was refused.
    #[error("out of memory")]
    OutOfMemory,
}

impl From<AllocError> for RecordPutFault {
    ghost from_gives = { λ _ e. e ≡ OutOfMemory };

    fn from(_fault: AllocError) -> RecordPutFault {
        RecordPutFault::OutOfMemory
    }
}
