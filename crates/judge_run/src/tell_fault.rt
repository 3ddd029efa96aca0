// Why no verdict was reported, or not all of it.
ghost use Rattle.std.specs.Prelude.{◌≡◌};
ghost use Rattle.judge_run.specs.declared.tell_fault.TellFault.TheVariants.{OutOfMemory};

use std::alloc::AllocError;
use thiserror::Error;

/// Why nothing was reported, or not all of it.
#[derive(Clone, Copy, Debug, PartialEq, Eq, Error)]
pub enum TellFault {
    /// Memory was refused.
    #[error("out of memory")]
    OutOfMemory,
    /// The calls of a stream are more than 64 bits can count.
    #[error("there are more calls than can be counted")]
    CountFull,
    /// The reader failed. A failed read is not tried again.
    #[error("the input was not read whole")]
    ReadFault,
    /// The writer failed, or took no more. It holds a front of the report, and not all of it.
    #[error("the output was not written whole")]
    WriteFault,
}

impl From<AllocError> for TellFault {
    ghost from_gives = { λ _ e. e ≡ OutOfMemory };

    fn from(_refused: AllocError) -> TellFault {
        TellFault::OutOfMemory
    }
}
