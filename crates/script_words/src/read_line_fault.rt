// Why no line was read.
ghost use Rattle.std.specs.Prelude.{◌≡◌};
ghost use Rattle.script_words.specs.declared.read_line_fault.ReadLineFault.TheVariants.{OutOfMemory};

use std::alloc::AllocError;
use thiserror::Error;

/// Why no line was read. What was read of it is kept.
#[derive(Clone, Copy, Debug, PartialEq, Eq, Error)]
pub enum ReadLineFault {
    /// Memory for the line was refused.
    #[error("out of memory")]
    OutOfMemory,
    /// The reader failed. A failed read is not tried again.
    #[error("file fault")]
    ReadFault,
}

impl From<AllocError> for ReadLineFault {
    ghost from_gives = { λ _ e. e ≡ OutOfMemory };

    fn from(_fault: AllocError) -> ReadLineFault {
        ReadLineFault::OutOfMemory
    }
}
