ghost use Rattle.std.specs.Prelude.{◌≡◌};
ghost use Rattle.certificate_checker.specs.declared.judge_fault.JudgeFault.TheVariants.{OutOfMemory};

use std::alloc::AllocError;
use thiserror::Error;

/// Why a trace was not judged.
#[derive(Clone, Copy, Debug, PartialEq, Eq, Error)]
pub enum JudgeFault {
    /// Memory was refused. Nothing was written.
    #[error("out of memory")]
    OutOfMemory,
    /// The writer failed, or took no more. It holds a front of the line, and not all of it.
    #[error("file fault")]
    WriteFault,
}

impl From<AllocError> for JudgeFault {
    ghost from_gives = { λ _ e. e ≡ OutOfMemory };

    fn from(_refused: AllocError) -> JudgeFault {
        JudgeFault::OutOfMemory
    }
}
