// Why a command line asks for nothing.
ghost use Rattle.std.specs.Prelude.{◌≡◌};
ghost use Rattle.command_line.specs.declared.line_fault.LineFault.TheVariants.{OutOfMemory};

use std::alloc::AllocError;
use thiserror::Error;

/// Why the words of the command line ask for nothing to be done.
#[derive(Debug, Drop, Error)]
pub enum LineFault {
    /// They are not spelled as the program wants them. The text says what is wrong.
    #[error("{0}")]
    Usage(String),
    /// They ask for help or for the version. The text is what they ask for.
    #[error("{0}")]
    Help(String),
    /// Memory was refused.
    #[error("out of memory")]
    OutOfMemory,
}

impl From<AllocError> for LineFault {
    ghost from_gives = { λ _ e. e ≡ OutOfMemory };

    fn from(_fault: AllocError) -> LineFault {
        LineFault::OutOfMemory
    }
}
