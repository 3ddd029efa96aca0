ghost use Rattle.std.specs.Prelude.{◌≡◌};
ghost use Rattle.scripts.specs.declared.script_fault.ScriptFault.TheVariants.{OutOfMemory};

use script_words::ReadLineFault;
use std::alloc::AllocError;
use thiserror::Error;

/// Why a script was given up. Before the first two the replies of the lines before were written;
/// after `WriteFault` nothing is said of the output.
#[derive(Clone, Copy, Debug, PartialEq, Eq, Error)]
pub enum ScriptFault {
    /// Memory was refused.
    #[error("out of memory")]
    OutOfMemory,
    /// The reader failed. A failed read is not tried again.
    #[error("file fault")]
    ReadFault,
    /// The writer failed.
    #[error("file fault")]
    WriteFault,
}

impl From<AllocError> for ScriptFault {
    ghost from_gives = { λ _ e. e ≡ OutOfMemory };

    fn from(_fault: AllocError) -> ScriptFault {
        ScriptFault::OutOfMemory
    }
}

/// A line that was not read ends the script for the same cause.
impl From<ReadLineFault> for ScriptFault {
    ghost use Rattle.scripts.specs.Faults.{given_up_by};

    ghost from_gives = { λ fault e. e ≡ given_up_by fault };

    fn from(fault: ReadLineFault) -> ScriptFault {
        match fault {
            ReadLineFault::OutOfMemory => ScriptFault::OutOfMemory,
            ReadLineFault::ReadFault => ScriptFault::ReadFault,
        }
    }
}
