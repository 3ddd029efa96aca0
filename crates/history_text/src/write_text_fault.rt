// Why a history was not written as text.
ghost use Rattle.std.specs.Prelude.{◌≡◌};
ghost use Rattle.history_text.specs.declared.write_text_fault.WriteTextFault.TheVariants.{OutOfMemory};

use std::alloc::AllocError;
use thiserror::Error;

/// Why a history was not written as text, or not all of it.
#[derive(Clone, Copy, Debug, PartialEq, Eq, Error)]
pub enum WriteTextFault {
    /// The call at this position has a stamp or a time that a text has no number for: one of 2^63 or more. The lines of
    /// the calls before it were written.
    #[error("a stamp of 2^63 or more has no text")]
    TooLate { position: usize },
    /// Memory for a line was refused.
    #[error("out of memory")]
    OutOfMemory,
    /// The writer failed. It may have taken a front of a line.
    #[error("file fault")]
    WriteFault,
}

impl From<AllocError> for WriteTextFault {
    ghost from_gives = { λ _ e. e ≡ OutOfMemory };

    fn from(_refused: AllocError) -> WriteTextFault {
        WriteTextFault::OutOfMemory
    }
}
