ghost use Rattle.std.specs.Prelude.{◌≡◌};
ghost use Rattle.scripts.specs.declared.open_script_fault.OpenScriptFault.TheVariants.{OutOfMemory};

use record_pages::Field;
use std::alloc::AllocError;
use thiserror::Error;

/// Why a script's lane is not opened. They are tested in this order.
#[derive(Clone, Copy, Debug, PartialEq, Eq, Error)]
pub enum OpenScriptFault {
    /// This field of the configuration is out of its range, or there is more than one lane.
    #[error("bad config {field}")]
    BadConfig { field: Field },
    /// Memory was refused.
    #[error("out of memory")]
    OutOfMemory,
}

impl From<AllocError> for OpenScriptFault {
    ghost from_gives = { λ _ e. e ≡ OutOfMemory };

    fn from(_fault: AllocError) -> OpenScriptFault {
        OpenScriptFault::OutOfMemory
    }
}
