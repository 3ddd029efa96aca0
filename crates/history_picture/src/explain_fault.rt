// Why a picture was not written.
ghost use Rattle.std.specs.Prelude.{◌≡◌};
ghost use Rattle.history_picture.specs.declared.explain_fault.ExplainFault.TheVariants.{OutOfMemory};

use std::alloc::AllocError;
use thiserror::Error;

/// Why a picture was not written.
#[derive(Clone, Copy, Debug, PartialEq, Eq, Error)]
pub enum ExplainFault {
    /// Memory was refused. Nothing was written.
    #[error("out of memory")]
    OutOfMemory,
    /// The writer failed. It may have taken a front of the picture.
    #[error("the picture was not written")]
    WriteFault,
}

impl From<AllocError> for ExplainFault {
    ghost from_gives = { λ _ e. e ≡ OutOfMemory };

    fn from(_refused: AllocError) -> ExplainFault {
        ExplainFault::OutOfMemory
    }
}
