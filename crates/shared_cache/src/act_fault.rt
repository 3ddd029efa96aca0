// Why a call was not made.
use recorded_lane::Noted;
use std::alloc::AllocError;
use thiserror::Error;

/// Why a call was not made, in the order in which it is tested. It is in no history and no pass lists it.
#[derive(Debug, Drop, Error)]
pub enum ActFault {
    /// The pass's former call of this lane does not stand at its position: another one does, or none.
    #[error("the call at position {position} is not the one that was made")]
    HistoryLost {
        position: usize,
        found: Option<Noted>,
    },
    /// The lane has recorded as many calls as it records.
    #[error("the history is full")]
    HistoryFull,
    /// The clock would pass its last stamp.
    #[error("the clock is full")]
    ClockFull,
    /// Memory was refused.
    #[error("out of memory")]
    OutOfMemory,
}

impl From<AllocError> for ActFault {
    ghost use Rattle.std.specs.Prelude.{◌≡◌};
    ghost use Rattle.shared_cache.specs.declared.act_fault.ActFault.TheVariants.{OutOfMemory};

    ghost from_gives = { λ _ fault. fault ≡ OutOfMemory };

    fn from(_refused: AllocError) -> ActFault {
        ActFault::OutOfMemory
    }
}
