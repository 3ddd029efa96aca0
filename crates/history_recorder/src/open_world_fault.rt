ghost use Rattle.std.specs.Prelude.{◌≡◌};
ghost use Rattle.history_recorder.specs.declared.open_world_fault.OpenWorldFault.TheVariants.{ConfigFault, OutOfMemory};

use record_pages::{ConfigFault, Field};
use std::alloc::AllocError;
use thiserror::Error;

/// Why a world is not opened. They are tested in this order.
#[derive(Clone, Copy, Debug, PartialEq, Eq, Error)]
pub enum OpenWorldFault {
    /// This field of the configuration is out of its range.
    #[error("{field} is out of its range")]
    ConfigFault { field: Field },
    /// There are no callers.
    #[error("there are no callers")]
    NoCallers,
    /// There is not one device for each lane.
    #[error("there is not one device for each lane")]
    DeviceCount,
    /// The page size is outside 256 to 4,096 bytes.
    #[error("the page size is out of its range")]
    WrongPage,
    /// A device has fewer pages than the sets and the log of a lane need.
    #[error("a device is too small")]
    DeviceTooSmall,
    /// Memory was refused.
    #[error("out of memory")]
    OutOfMemory,
}

impl From<ConfigFault> for OpenWorldFault {
    ghost from_gives = { λ f e. e ≡ ConfigFault f.field };

    fn from(fault: ConfigFault) -> OpenWorldFault {
        OpenWorldFault::ConfigFault { field: fault.field }
    }
}

impl From<AllocError> for OpenWorldFault {
    ghost from_gives = { λ f e. e ≡ OutOfMemory };

    fn from(_fault: AllocError) -> OpenWorldFault {
        OpenWorldFault::OutOfMemory
    }
}
